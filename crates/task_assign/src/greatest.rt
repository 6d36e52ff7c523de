//! The greatest numbers of the rows.

ghost use Rattle.std.specs.Prelude.{◌≡◌, ◌≢◌, ◌<◌, ◌≤◌, ◌+◌, ℕ, IsTrue, IsFalse, slice_index};
ghost use Rattle.task_assign.specs.Sums.{sum_below};
ghost use Rattle.task_assign.specs.Squares.{cost_at};
ghost use Rattle.task_assign.specs.Bounds.{column_in, raised_in, AreSound, ArePlaced};
ghost use Rattle.task_assign.specs.Limits.{IsStable, AreLimits};

use crate::costs::Costs;
use crate::numbers::Numbers;
use crate::pairing::Pairing;

// The greatest numbers of the rows, by as much more as the number of the first row was raised.
pub(crate) fn greatest_rows(costs: &Costs, pairing: &Pairing, numbers: &Numbers) -> [u64; 64]
    requires sound { AreSound costs.now numbers.now }
    requires placed { ArePlaced costs.now numbers.now (column_in pairing.now) 0 }
    ensures limits { AreLimits costs.now numbers.now (column_in pairing.now) (slice_index result) }
    ensures stable { (i : ℕ) → i < costs.now.size → IsStable costs.now (column_in pairing.now) (slice_index result) i }
{
    let mut values = first_values(costs, pairing, numbers);
    while lowers(costs, pairing, numbers, &mut values) {}
    values
}

// Numbers that are as great as the column of the first row allows.
fn first_values(costs: &Costs, pairing: &Pairing, numbers: &Numbers) -> [u64; 64]
    requires sound { AreSound costs.now numbers.now }
    requires placed { ArePlaced costs.now numbers.now (column_in pairing.now) 0 }
    ensures { AreLimits costs.now numbers.now (column_in pairing.now) (slice_index result) }
{
    let mut values = [0; 64];
    let size = costs.size();
    let column = pairing.column(0);
    for row in 0..size {
        values[row as usize] = costs.get(row, column) + numbers.lowered[column as usize];
    }
    values
}

// Lowers each number to what the others allow. Whether some number changed.
fn lowers(costs: &Costs, pairing: &Pairing, numbers: &Numbers, values: &mut [u64; 64]) -> bool
    requires sound { AreSound costs.now numbers.now }
    requires placed { ArePlaced costs.now numbers.now (column_in pairing.now) 0 }
    requires limits { AreLimits costs.now numbers.now (column_in pairing.now) (slice_index values.old) }
    ensures limits { AreLimits costs.now numbers.now (column_in pairing.now) (slice_index values.new) }
    ensures stable { IsFalse result → (i : ℕ) → i < costs.now.size → IsStable costs.now (column_in pairing.now) (slice_index values.new) i }
    ensures less { IsTrue result → sum_below costs.now.size (slice_index values.new) < sum_below costs.now.size (slice_index values.old) }
{
    let mut changed = false;
    for row in 0..costs.size() {
        let value = allowed(costs, pairing, numbers, values, row);
        if value < values[row as usize] {
            values[row as usize] = value;
            changed = true;
        }
    }
    changed
}

// The greatest number of the row that the others allow, and at most what it is.
fn allowed(costs: &Costs, pairing: &Pairing, numbers: &Numbers, values: &[u64; 64], row: u32) -> u64
    requires known { row < costs.now.size }
    requires sound { AreSound costs.now numbers.now }
    requires placed { ArePlaced costs.now numbers.now (column_in pairing.now) 0 }
    requires limits { AreLimits costs.now numbers.now (column_in pairing.now) (slice_index values.now) }
    ensures upto { result ≤ slice_index values.now row }
    ensures above { raised_in numbers.now row ≤ result }
    ensures attained { (k : ℕ) × (k < costs.now.size)
        × (result + cost_at costs.now k (column_in pairing.now k) ≡ slice_index values.now k + cost_at costs.now row (column_in pairing.now k)) }
    ensures stable { (k : ℕ) → k < costs.now.size
        → result + cost_at costs.now k (column_in pairing.now k) ≤ slice_index values.now k + cost_at costs.now row (column_in pairing.now k) }
{
    let size = costs.size();
    let mut least = values[row as usize];
    for other in 0..size {
        let column = pairing.column(other);
        least = least.min(
            values[other as usize] + costs.get(row, column) - costs.get(other, column),
        );
    }
    least
}
