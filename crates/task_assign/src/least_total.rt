//! The least total.

ghost use Rattle.std.specs.Prelude.{◌≡◌, ◌≢◌, ◌<◌, ◌≤◌, ◌+◌, ℕ, Bool, true};
ghost use Rattle.task_assign.specs.Squares.{cost_at};
ghost use Rattle.task_assign.specs.Pairings.{IsPairing};
ghost use Rattle.task_assign.specs.Bounds.{column_in, raised_in, lowered_in, meets, AreSound, ArePlaced};
ghost use Rattle.task_assign.specs.Trees.{row_in, is_reached, IsTree, IsClosed};
ghost use Rattle.task_assign.specs.Lifts.{IsRoom, IsSmall, IsRaised};

use crate::costs::{Costs, MAX_ENTRY};
use crate::numbers::Numbers;
use crate::pairing::Pairing;
use crate::tree::Tree;

// Gives each row a column that it meets.
pub(crate) fn place_all(costs: &Costs, pairing: &mut Pairing, numbers: &mut Numbers)
    requires sound { AreSound costs.now numbers.old }
    requires placed { ArePlaced costs.now numbers.old (column_in pairing.old) costs.now.size }
    ensures sound { AreSound costs.now numbers.new }
    ensures placed { ArePlaced costs.now numbers.new (column_in pairing.new) 0 }
{
    let mut row = costs.size();
    while row > 0 {
        row -= 1;
        place(costs, pairing, numbers, row);
    }
}

// Gives the row a column that it meets. Those behind it have one, and keep one.
fn place(costs: &Costs, pairing: &mut Pairing, numbers: &mut Numbers, row: u32)
    requires known { row < costs.now.size }
    requires sound { AreSound costs.now numbers.old }
    requires placed { ArePlaced costs.now numbers.old (column_in pairing.old) (row + 1) }
    ensures sound { AreSound costs.now numbers.new }
    ensures placed { ArePlaced costs.now numbers.new (column_in pairing.new) row }
{
    loop {
        let mut tree = Tree::new(row, costs.size(), 0, row);
        if let Some(end) = tree.grow(costs, pairing, numbers) {
            tree.turn(pairing, &end);
            return;
        }
        lift(costs, pairing, numbers, &tree);
    }
}

// Raises the rows that were reached, and lowers the columns of those behind the first, until one
// more row is met.
fn lift(costs: &Costs, pairing: &Pairing, numbers: &mut Numbers, tree: &Tree)
    requires sized { tree.now.size ≡ costs.now.size }
    requires begins { tree.now.first ≡ 0 }
    requires tree { IsTree tree.now }
    requires ends { row_in tree.now 0 ≡ tree.now.last }
    requires sound { AreSound costs.now numbers.old }
    requires placed { ArePlaced costs.now numbers.old (column_in pairing.now) (tree.now.last + 1) }
    requires closed { IsClosed (meets costs.now numbers.old) (column_in pairing.now) tree.now }
    ensures sound { AreSound costs.now numbers.new }
    ensures placed { ArePlaced costs.now numbers.new (column_in pairing.now) (tree.now.last + 1) }
    ensures raised { raised_in numbers.old tree.now.last < raised_in numbers.new tree.now.last }
{
    let by = least_slack(costs, pairing, numbers, tree);
    raise(pairing, numbers, tree, by);
}

// How far the rows that were reached can be raised.
fn least_slack(costs: &Costs, pairing: &Pairing, numbers: &Numbers, tree: &Tree) -> u64
    requires sized { tree.now.size ≡ costs.now.size }
    requires begins { tree.now.first ≡ 0 }
    requires tree { IsTree tree.now }
    requires sound { AreSound costs.now numbers.now }
    requires pairing { IsPairing costs.now.size (column_in pairing.now) }
    requires closed { IsClosed (meets costs.now numbers.now) (column_in pairing.now) tree.now }
    ensures some { 1 ≤ result }
    ensures most { result ≤ MAX_ENTRY }
    ensures room { (a : ℕ) → a < costs.now.size → is_reached tree.now a ≡ true
        → IsRoom costs.now numbers.now (column_in pairing.now) tree.now a result }
{
    let mut least = MAX_ENTRY;
    for from in 0..costs.size() {
        if tree.reached[from as usize] {
            least = slack_from(costs, pairing, numbers, tree, from, least);
        }
    }
    least
}

// How far the row can be raised, and at most so far.
fn slack_from(
    costs: &Costs,
    pairing: &Pairing,
    numbers: &Numbers,
    tree: &Tree,
    from: u32,
    most: u64,
) -> u64
    requires sized { tree.now.size ≡ costs.now.size }
    requires begins { tree.now.first ≡ 0 }
    requires tree { IsTree tree.now }
    requires sound { AreSound costs.now numbers.now }
    requires pairing { IsPairing costs.now.size (column_in pairing.now) }
    requires closed { IsClosed (meets costs.now numbers.now) (column_in pairing.now) tree.now }
    requires known { from < costs.now.size }
    requires reached { is_reached tree.now from ≡ true }
    requires some { 1 ≤ most }
    ensures some { 1 ≤ result }
    ensures most { result ≤ most }
    ensures room { IsRoom costs.now numbers.now (column_in pairing.now) tree.now from result }
{
    let mut least = most;
    for other in 0..costs.size() {
        if tree.is_left(other) {
            least = least.min(numbers.slack(costs, from, pairing.column(other)));
        }
    }
    least
}

// Raises the rows that were reached, and lowers the columns of those behind the first.
fn raise(pairing: &Pairing, numbers: &mut Numbers, tree: &Tree, by: u64)
    requires tree { IsTree tree.now }
    requires pairing { IsPairing tree.now.size (column_in pairing.now) }
    requires small { (b : ℕ) → b < tree.now.size → IsSmall numbers.old (column_in pairing.now) tree.now by b }
    ensures { (b : ℕ) → b < tree.now.size → IsRaised (column_in pairing.now) tree.now by numbers.old numbers.new b }
{
    for row in 0..tree.size {
        raise_row(pairing, numbers, tree, row, by);
    }
}

// Raises the row where it was reached, and then lowers its column where it is behind the first.
fn raise_row(pairing: &Pairing, numbers: &mut Numbers, tree: &Tree, row: u32, by: u64)
    requires row_known { row < 64 }
    requires column_known { column_in pairing.now row < 64 }
    requires small { IsSmall numbers.old (column_in pairing.now) tree.now by row }
    ensures raised { IsRaised (column_in pairing.now) tree.now by numbers.old numbers.new row }
    ensures other_rows { (b : ℕ) → b ≢ row → raised_in numbers.new b ≡ raised_in numbers.old b }
    ensures other_columns { (j : ℕ) → j ≢ column_in pairing.now row → lowered_in numbers.new j ≡ lowered_in numbers.old j }
{
    if tree.reached[row as usize] {
        numbers.raised[row as usize] += by;
        if row > tree.last {
            let column = pairing.column(row);
            numbers.lowered[column as usize] += by;
        }
    }
}
