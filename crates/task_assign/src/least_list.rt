//! The least list of columns.

ghost use Rattle.std.specs.Prelude.{◌≡◌, ◌≢◌, ◌<◌, ◌≤◌, ℕ, IsTrue, IsFalse};
ghost use Rattle.task_assign.specs.Pairings.{IsPairing};
ghost use Rattle.task_assign.specs.Bounds.{column_in, AllMeet, AreSound, ArePlaced, IsLeastAt};

use crate::costs::Costs;
use crate::numbers::Numbers;
use crate::pairing::Pairing;
use crate::tree::Tree;

// Gives each row in turn the least column with which all rows meet theirs.
pub(crate) fn settle_all(costs: &Costs, pairing: &mut Pairing, numbers: &Numbers)
    requires sound { AreSound costs.now numbers.now }
    requires placed { ArePlaced costs.now numbers.now (column_in pairing.old) 0 }
    ensures placed { ArePlaced costs.now numbers.now (column_in pairing.new) 0 }
    ensures least { (i : ℕ) → i < costs.now.size → IsLeastAt costs.now numbers.now (column_in pairing.new) i }
{
    for row in 0..costs.size() {
        settle(costs, pairing, numbers, row);
    }
}

// Gives the row the least column with which those before it keep theirs and all rows meet theirs.
fn settle(costs: &Costs, pairing: &mut Pairing, numbers: &Numbers, row: u32)
    requires known { row < costs.now.size }
    requires sound { AreSound costs.now numbers.now }
    requires placed { ArePlaced costs.now numbers.now (column_in pairing.old) 0 }
    ensures placed { ArePlaced costs.now numbers.now (column_in pairing.new) 0 }
    ensures kept { (k : ℕ) → k < row → column_in pairing.new k ≡ column_in pairing.old k }
    ensures least { IsLeastAt costs.now numbers.now (column_in pairing.new) row }
{
    for column in 0..costs.size() {
        let holder = pairing.holder(column, costs.size());
        if holder == row {
            return;
        }
        if holder > row && gives(costs, pairing, numbers, row, holder) {
            return;
        }
    }
}

// Gives the row the column of the other, where all rows can meet theirs then and those before it
// keep theirs. Whether that can be.
fn gives(costs: &Costs, pairing: &mut Pairing, numbers: &Numbers, row: u32, holder: u32) -> bool
    requires before { row < holder }
    requires known { holder < costs.now.size }
    requires sound { AreSound costs.now numbers.now }
    requires placed { ArePlaced costs.now numbers.now (column_in pairing.old) 0 }
    ensures placed { ArePlaced costs.now numbers.now (column_in pairing.new) 0 }
    ensures kept { (k : ℕ) → k < row → column_in pairing.new k ≡ column_in pairing.old k }
    ensures given { IsTrue result → column_in pairing.new row ≡ column_in pairing.old holder }
    ensures same { IsFalse result → pairing.new ≡ pairing.old }
    ensures refused { IsFalse result → (other : ℕ → ℕ) → IsPairing costs.now.size other
        → AllMeet costs.now numbers.now other → ((k : ℕ) → k < row → column_in pairing.old k ≡ other k)
        → other row ≢ column_in pairing.old holder }
{
    let size = costs.size();
    if !numbers.meet(costs, row, pairing.column(holder)) {
        return false;
    }
    let mut tree = Tree::new(holder, size, row, row);
    let Some(end) = tree.grow(costs, pairing, numbers) else {
        return false;
    };
    tree.turn(pairing, &end);
    true
}
