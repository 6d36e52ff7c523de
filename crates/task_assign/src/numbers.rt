//! Numbers of rows and columns.

ghost use Rattle.std.specs.Prelude.{◌≡◌, ◌<◌, ◌≤◌, ◌+◌, ℕ};
ghost use Rattle.task_assign.specs.Squares.{cost_at};
ghost use Rattle.task_assign.specs.Bounds.{raised_in, lowered_in, meets, AreSound};

use crate::costs::Costs;

// The number of a row is raised, and that of a column lowered, from 0 on.
#[derive(Drop)]
pub(crate) struct Numbers {
    // By rows.
    pub(crate) raised: [u64; 64],
    // By columns.
    pub(crate) lowered: [u64; 64],
}

impl Numbers {
    // Each is 0.
    pub(crate) fn new() -> Numbers
        ensures raised { (k : ℕ) → raised_in result k ≡ 0 }
        ensures lowered { (k : ℕ) → lowered_in result k ≡ 0 }
    {
        Numbers {
            raised: [0; 64],
            lowered: [0; 64],
        }
    }

    // How far the number of the row can be raised until it meets the column.
    pub(crate) fn slack(&self, costs: &Costs, row: u32, column: u32) -> u64
        requires row_known { row < costs.now.size }
        requires column_known { column < costs.now.size }
        requires sound { AreSound costs.now self.now }
        ensures { raised_in self.now row + result ≡ cost_at costs.now row column + lowered_in self.now column }
    {
        let _size = costs.size();
        costs.get(row, column) + self.lowered[column as usize] - self.raised[row as usize]
    }

    // Whether the numbers of the row and the column are together the cost.
    pub(crate) fn meet(&self, costs: &Costs, row: u32, column: u32) -> bool
        requires row_known { row < costs.now.size }
        requires column_known { column < costs.now.size }
        requires sound { AreSound costs.now self.now }
        ensures { result ≡ meets costs.now self.now row column }
    {
        self.slack(costs, row, column) == 0
    }
}
