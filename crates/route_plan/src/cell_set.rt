//! A set of cells in place.

ghost use Rattle.std.specs.Prelude.{◌≡◌, ◌<◌};
ghost use Rattle.std.specs.FinSet as set;

use bit_set::BitSet;
use fleet_base::limits::MAX_CELLS;
use fleet_base::numbers::CellNo;
use std::marker::Model;

/// A set of cells, each with a number below 1,024. It takes no memory. Contracts see the set of
/// the cells' numbers.
#[derive(Clone, Copy)]
pub struct CellSet {
    // One bit for each of 1,024 cells.
    numbers: BitSet<16>,
}

impl Model for CellSet {
    ghost use Rattle.std.specs.Ordering.{nat_cmp};
    ghost use Rattle.std.specs.Coded.{coded_ℕ};
    ghost use Rattle.std.specs.FinSet as set;

    ghost Value = { set.FinSet nat_cmp };

    ghost coded = { set.code coded_ℕ };

    ghost view = { λ s. s.numbers };

    ghost inverse = { λ numbers. record { numbers = numbers } };
}

impl CellSet {
    /// The empty set.
    pub fn new() -> Self
        ensures { result ≡ set.empty }
    {
        CellSet {
            numbers: BitSet::new(),
        }
    }

    /// Whether the cell is in the set.
    pub fn holds(&self, cell: CellNo) -> bool
        requires { cell.0 < MAX_CELLS }
        ensures { result ≡ set.contains self.now cell.0 }
    {
        self.numbers.contains(cell.0)
    }

    /// Puts the cell into the set, where it may be already.
    pub fn put(&mut self, cell: CellNo)
        requires { cell.0 < MAX_CELLS }
        ensures { self.new ≡ set.insert self.old cell.0 }
    {
        self.numbers.insert(cell.0);
    }
}
