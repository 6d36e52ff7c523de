//! A list of cells that owns its memory.

ghost use Rattle.std.specs.Prelude.{◌≡◌, IfOk};

use crate::numbers::CellNo;
use std::alloc::{AllocError, Global};
use std::marker::Model;

/// No memory was left.
#[derive(Clone, Copy, Debug, PartialEq, Eq)]
pub struct NoMemory;

impl From<AllocError> for NoMemory {
    ghost from_gives = { λ _ refused. refused ≡ record {} };

    fn from(_error: AllocError) -> Self {
        NoMemory
    }
}

/// The cells of a route, in order. It is any list of cells: the calls that take one say what they
/// ask of it.
#[derive(Drop)]
pub struct Path {
    cells: Vec<CellNo>,
}

impl Model for Path {
    ghost use Rattle.std.specs.Prelude.{List};
    ghost use Rattle.fleet_base.specs.declared.numbers.CellNo.{CellNo};

    ghost Value = { List CellNo };

    ghost view = { λ p. p.cells.items };
}

impl Path {
    /// A path of just these cells. The only call of this crate that takes memory.
    pub fn copy_of(alloc: Global, cells: &[CellNo]) -> Result<Path, NoMemory>
        ensures { IfOk result (λ path. path ≡ cells.now) }
    {
        Ok(Path {
            cells: Vec::from_slice(alloc, cells)?,
        })
    }

    /// The path of a vector's cells, in the memory of the vector.
    pub fn from_vec(cells: Vec<CellNo>) -> Path
        ensures { result ≡ cells.items }
    {
        Path { cells }
    }

    /// The cells, in order.
    pub fn cells(&self) -> &[CellNo]
        ensures { result.now ≡ self.now }
    {
        &self.cells
    }

    /// The vector of the cells, in the memory of the path.
    pub fn into_vec(self) -> Vec<CellNo>
        ensures { result.items ≡ self }
    {
        self.cells
    }
}
