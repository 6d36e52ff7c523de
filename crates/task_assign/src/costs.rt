//! A square of costs.

ghost use Rattle.std.specs.Prelude.{◌≡◌, ◌<◌, ◌≤◌, ℕ, ◌==◌, ◌&&◌, IfOk, if◌then◌else◌, length, slice_index};
ghost use Rattle.task_assign.specs.Squares.{cost_at};
ghost use Rattle.task_assign.specs.Pairings.{IsPairing, total_of};

use fleet_base::path::NoMemory;
use std::alloc::Global;
use std::marker::Model;

/// Rows and columns of a square.
pub const MAX_SIZE: u32 = 64;

/// The greatest cost.
pub const MAX_ENTRY: u64 = 1_000_000_000_000;

/// The cost of each row and each column of a square of 1 to 64 rows.
#[derive(Drop)]
pub struct Costs {
    size: u32,
    // By rows, with 64 places for each.
    costs: Vec<u64>,
}

impl Model for Costs {
    ghost use Rattle.task_assign.specs.Squares.{Square, IsSquare};

    ghost Value = { Square };

    ghost view = { λ c. record { size = c.size; costs = c.costs.items } };

    ghost invariant = { λ c. IsSquare (record { size = c.size; costs = c.costs.items }) };
}

impl Costs {
    /// A square of so many rows, in which each cost is 0.
    pub fn new(size: u32, alloc: Global) -> Result<Costs, NoMemory>
        requires some { 1 ≤ size }
        requires few { size ≤ MAX_SIZE }
        ensures sized { IfOk result (λ costs. costs.size ≡ size) }
        ensures zero { IfOk result (λ costs. (i j : ℕ) → cost_at costs i j ≡ 0) }
    {
        Ok(Costs {
            size,
            costs: vec![in alloc; 0; 4096]?,
        })
    }

    /// Makes the cost of the row and the column this one. No other changes.
    pub fn set(&mut self, row: u32, column: u32, cost: u64)
        requires row_known { row < self.old.size }
        requires column_known { column < self.old.size }
        requires bounded { cost ≤ MAX_ENTRY }
        ensures sized { self.new.size ≡ self.old.size }
        ensures costs { (i j : ℕ) → i < self.old.size → j < self.old.size → cost_at self.new i j
            ≡ (if i == row && j == column then cost else cost_at self.old i j) }
    {
        self.costs[(64 * row + column) as usize] = cost;
    }

    /// The cost of the row and the column.
    pub fn get(&self, row: u32, column: u32) -> u64
        requires row_known { row < self.now.size }
        requires column_known { column < self.now.size }
        ensures found { result ≡ cost_at self.now row column }
        ensures bounded { result ≤ MAX_ENTRY }
    {
        self.costs[(64 * row + column) as usize]
    }

    /// The number of rows, which is that of the columns, at least 1 and at most [`MAX_SIZE`].
    pub fn size(&self) -> u32
        ensures sized { result ≡ self.now.size }
        ensures some { 1 ≤ result }
        ensures few { result ≤ MAX_SIZE }
        ensures bounded { (i j : ℕ) → cost_at self.now i j ≤ MAX_ENTRY }
    {
        self.size
    }

    // The sum of the costs of the rows' columns.
    pub(crate) fn total_of(&self, columns: &[u32]) -> u64
        requires long { self.now.size ≤ length columns.now }
        requires pairing { IsPairing self.now.size (slice_index columns.now) }
        ensures { result ≡ total_of self.now.size (cost_at self.now) (slice_index columns.now) }
    {
        let mut sum = 0;
        for row in 0..self.size() {
            sum += self.get(row, columns[row as usize]);
        }
        sum
    }
}
