//! Lists of cells.

ghost use Rattle.std.specs.Prelude.{◌≡◌, ◌<◌, ◌≤◌, true, false, IfSome, IfOk, IfNone, All};
ghost use Rattle.std.specs.List.{filter};
ghost use Rattle.std.specs.FinSet as set;
ghost use Rattle.fleet_model.specs.Lists.{has_cell};
ghost use Rattle.fleet_base.specs.declared.numbers.CellNo.{CellNo};
ghost use Rattle.site_map.specs.Cells.{are_known, cells_below, has_repeat};

use bit_set::BitSet;
use fleet_base::numbers::CellNo;
use fleet_base::path::{NoMemory, Path};
use std::alloc::{AllocError, Global};

// Whether each is one of the first cells, so many.
pub(crate) fn are_known(cells: &[CellNo], count: u32) -> bool
    ensures { result ≡ are_known count cells.now }
{
    cells.iter().all(|cell| cell.0 < count)
}

// The cells' numbers as a set, or none where a cell stands twice.
pub(crate) fn set_of(cells: &[CellNo]) -> Option<BitSet<16>>
    requires { All (λ c. c.0 < 1024) cells.now }
    ensures repeated { IfNone result (has_repeat cells.now ≡ true) }
    ensures numbers { IfSome result (λ s. (c : CellNo) → set.contains s c.0 ≡ has_cell cells.now c) }
    ensures distinct { IfSome result (λ _. has_repeat cells.now ≡ false) }
{
    let mut seen = BitSet::new();
    for cell in cells {
        if seen.contains(cell.0) {
            return None;
        }
        seen.insert(cell.0);
    }
    Some(seen)
}

// Those of the first cells, so many, that are in the set, ascending.
pub(crate) fn ascending(alloc: Global, members: &BitSet<16>, count: u32) -> Result<Path, AllocError>
    requires { count ≤ 1024 }
    ensures { IfOk result (λ path. path ≡ filter (λ c. set.contains members.now c.0) (cells_below count)) }
{
    let mut cells = Vec::new(alloc);
    for number in 0..count {
        if members.contains(number) {
            cells.push(CellNo(number))?;
        }
    }
    Ok(Path::from_vec(cells))
}

// Equal paths.
pub(crate) fn copy_paths(alloc: Global, paths: &[Path]) -> Result<Vec<Path>, NoMemory>
    ensures { IfOk result (λ v. v.items ≡ paths.now) }
{
    let mut copies = Vec::with_capacity(alloc, paths.len())?;
    for path in paths {
        if copies.push(Path::copy_of(alloc, path.cells())?).is_err() {
            return Err(NoMemory);
        }
    }
    Ok(copies)
}
