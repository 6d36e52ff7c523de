//! The assignment.

ghost use Rattle.std.specs.Prelude.{◌≡◌, ◌<◌, ◌≤◌, ℕ, IfOk, length, slice_index};
ghost use Rattle.task_assign.specs.Squares.{cost_at};
ghost use Rattle.task_assign.specs.Pairings.{IsPairing, total_of};
ghost use Rattle.task_assign.specs.Assignments.{IsAssignment, IsShown};
ghost use Rattle.task_assign.specs.Bounds.{column_in};
ghost use Rattle.task_assign.specs.Finished.{AreLessFirst, AreLeftOver, IsSmallInt, int_at};

use crate::assignment::Assignment;
use crate::costs::Costs;
use crate::greatest::greatest_rows;
use crate::least_list::settle_all;
use crate::least_total::place_all;
use crate::numbers::Numbers;
use crate::pairing::Pairing;
use fleet_base::path::NoMemory;
use std::alloc::Global;

/// The permutation of least total, of these the least as the list of its columns. Its row numbers
/// are the greatest that begin with 0, and its column numbers follow from its pairs.
pub fn assign(costs: &Costs, alloc: Global) -> Result<Assignment, NoMemory>
    ensures found { IfOk result (λ found. IsAssignment costs.now found) }

    // The checker says yes to it.
    ensures shown { IfOk result (λ found. IsShown costs.now found) }
{
    let mut pairing = Pairing::new();
    let mut numbers = Numbers::new();
    let size = costs.size();
    place_all(costs, &mut pairing, &mut numbers);
    settle_all(costs, &mut pairing, &numbers);
    let values = greatest_rows(costs, &pairing, &numbers);
    let rows = row_numbers(&values, size);
    let columns = column_numbers(costs, &pairing, &rows);
    let total = costs.total_of(&pairing.columns);
    Assignment::given(
        &pairing.columns[..size as usize],
        &rows[..size as usize],
        &columns[..size as usize],
        total,
        alloc,
    )
}

// The numbers, less the first.
fn row_numbers(values: &[u64; 64], size: u32) -> [i64; 64]
    requires some { 1 ≤ size }
    requires few { size ≤ 64 }
    requires upto { (i : ℕ) → i < size → slice_index values.now i ≤ 2000000000000 }
    ensures { AreLessFirst size values.now result }
{
    let mut rows = [0; 64];
    for row in 0..size {
        rows[row as usize] = values[row as usize] as i64 - values[0] as i64;
    }
    rows
}

// What the costs of the pairs leave for the columns.
fn column_numbers(costs: &Costs, pairing: &Pairing, rows: &[i64; 64]) -> [i64; 64]
    requires pairing { IsPairing costs.now.size (column_in pairing.now) }
    requires small { (i : ℕ) → i < costs.now.size → IsSmallInt (int_at rows.now i) }
    ensures { AreLeftOver costs.now (column_in pairing.now) rows.now result costs.now.size }
{
    let mut columns = [0; 64];
    for row in 0..costs.size() {
        let column = pairing.column(row);
        columns[column as usize] = costs.get(row, column) as i64 - rows[row as usize];
    }
    columns
}
