//! The cells of a goal, as a set.

ghost use Rattle.std.specs.Prelude.{◌≡◌, ◌<◌, All};
ghost use Rattle.fleet_base.specs.declared.limits.TheConstants.{MAX_CELLS};
ghost use Rattle.fleet_base.specs.declared.numbers.CellNo.{CellNo};
ghost use Rattle.fleet_model.specs.Lists.{has_cell};
ghost use Rattle.route_plan.specs.Labels.{has};
ghost use Rattle.site_map.specs.Goals.{IsGoal, goal_cells};

use crate::cell_set::CellSet;
use fleet_base::numbers::CellNo;
use site_map::goal::Goal;
use site_map::site::Site;

/// The cells of a goal of the site.
pub fn goal_set(site: &Site, goal: Goal) -> CellSet
    requires { IsGoal site.now goal }
    ensures { (cell : CellNo) → has result cell ≡ has_cell (goal_cells site.now goal) cell }
{
    // A site has at most 1,024 cells.
    let _count = site.cell_count();
    match goal {
        Goal::Cell(cell) => set_of(&[cell]),
        Goal::Area(area) => set_of(site.area_cells(area)),
    }
}

// The set of these cells.
fn set_of(cells: &[CellNo]) -> CellSet
    requires { All (λ cell. cell.0 < MAX_CELLS) cells.now }
    ensures { (cell : CellNo) → has result cell ≡ has_cell cells.now cell }
{
    let mut set = CellSet::new();
    for cell in cells {
        set.put(*cell);
    }
    set
}
