//! Goals of robots.

ghost use Rattle.std.specs.Prelude.{◌≡◌};
ghost use Rattle.fleet_model.specs.Lists.{has_cell};
ghost use Rattle.site_map.specs.Goals.{goal_cells, IsGoal};

use crate::site::Site;
use fleet_base::numbers::CellNo;

/// Where a robot is to go: to a cell, or to any cell of an area.
#[derive(Clone, Copy, Debug, PartialEq, Eq)]
pub enum Goal {
    /// This cell.
    Cell(CellNo),
    /// The cells of the area with this number.
    Area(u32),
}

/// Whether the cell is one of the goal's.
pub fn goal_holds(site: &Site, goal: Goal, cell: CellNo) -> bool
    requires { IsGoal site.now goal }
    ensures { result ≡ has_cell (goal_cells site.now goal) cell }
{
    match goal {
        Goal::Cell(only) => only == cell,
        Goal::Area(area) => site.area_cells(area).contains(&cell),
    }
}
