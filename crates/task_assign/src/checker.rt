//! A check of an assignment.

ghost use Rattle.std.specs.Prelude.{◌≡◌, ◌≢◌, ◌↔◌, ◌<◌, ◌≤◌, ◌+ℤ◌, ◌≤ℤ◌, pos, ℕ, IsTrue, length};
ghost use Rattle.task_assign.specs.Squares.{cost_at};
ghost use Rattle.task_assign.specs.Pairings.{IsPairing, AreNumbers, total_of};
ghost use Rattle.task_assign.specs.Assignments.{column_at, row_number_at, column_number_at, IsShown};

use crate::assignment::Assignment;
use crate::costs::Costs;

/// Whether the sizes agree, the columns are a permutation, the numbers of each row and each column
/// are together at most its cost, and just its cost for the chosen pairs, and the total is the sum
/// of these. It takes no memory.
#[tactic(auto, using(crate::proofs::Checks::shown_least))]
pub fn check_assignment(costs: &Costs, found: &Assignment) -> bool
    ensures exact { IsTrue result ↔ IsShown costs.now found.now }

    // No permutation has a smaller total.
    ensures least { IsTrue result → (other : ℕ → ℕ) → IsPairing costs.now.size other
        → found.now.total ≤ total_of costs.now.size (cost_at costs.now) other }
{
    found.size() == costs.size()
        && are_paired(found)
        && are_numbers(costs, found)
        && found.total() == costs.total_of(found.columns())
}

// Whether each row has a column of its own.
fn are_paired(found: &Assignment) -> bool
    ensures { IsTrue result ↔ IsPairing (length found.now.columns) (column_at found.now) }
{
    for row in 0..found.size() {
        if !is_apart(found, row) {
            return false;
        }
    }
    true
}

// Whether the row has a column, and no earlier row has the same.
fn is_apart(found: &Assignment, row: u32) -> bool
    requires { row < length found.now.columns }
    ensures { IsTrue result ↔ ((column_at found.now row < length found.now.columns)
        × ((k : ℕ) → k < row → column_at found.now k ≢ column_at found.now row)) }
{
    for earlier in 0..row {
        if found.column(earlier) == found.column(row) {
            return false;
        }
    }
    found.column(row) < found.size()
}

// Whether the numbers show that the total is least.
fn are_numbers(costs: &Costs, found: &Assignment) -> bool
    requires sized { length found.now.columns ≡ costs.now.size }
    requires pairing { IsPairing costs.now.size (column_at found.now) }
    ensures { IsTrue result ↔ AreNumbers costs.now.size (cost_at costs.now) (column_at found.now)
        (row_number_at found.now) (column_number_at found.now) }
{
    for row in 0..found.size() {
        if !is_within(costs, found, row) || !is_met(costs, found, row) {
            return false;
        }
    }
    true
}

// Whether the number of the row is small enough for each column.
fn is_within(costs: &Costs, found: &Assignment, row: u32) -> bool
    requires sized { length found.now.columns ≡ costs.now.size }
    requires known { row < costs.now.size }
    ensures { IsTrue result ↔ ((j : ℕ) → j < costs.now.size
        → (row_number_at found.now row +ℤ column_number_at found.now j) ≤ℤ pos (cost_at costs.now row j)) }
{
    for column in 0..found.size() {
        if found.row_number(row) + found.column_number(column) > costs.get(row, column) as i64 {
            return false;
        }
    }
    true
}

// Whether the numbers of the row and its column are together the cost.
fn is_met(costs: &Costs, found: &Assignment, row: u32) -> bool
    requires sized { length found.now.columns ≡ costs.now.size }
    requires known { row < costs.now.size }
    requires paired { column_at found.now row < costs.now.size }
    ensures { IsTrue result ↔ (row_number_at found.now row +ℤ column_number_at found.now (column_at found.now row)
        ≡ pos (cost_at costs.now row (column_at found.now row))) }
{
    let column = found.column(row);
    found.row_number(row) + found.column_number(column) == costs.get(row, column) as i64
}
