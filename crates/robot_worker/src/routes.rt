//! Routes to the goals of legs.

ghost use Rattle.std.specs.Prelude.{◌≡◌, ◌<◌, false, IfOk};
ghost use Rattle.fleet_model.specs.Lists.{has_cell};
ghost use Rattle.fleet_model.specs.Routes.{least_route as least_walk};
ghost use Rattle.site_map.specs.Claims.{site_of};
ghost use Rattle.site_map.specs.Goals.{goal_cells, IsGoal};

use fleet_base::numbers::CellNo;
use fleet_base::path::{NoMemory, Path};
use route_plan::cell_set::CellSet;
use route_plan::finder::least_route;
use route_plan::goals::goal_set;
use route_plan::refused::RouteRefused;
use site_map::goal::Goal;
use site_map::site::Site;
use std::alloc::Global;

/// The least route from the cell to the goal, avoiding nothing. None where no walk leads there.
pub fn route_to(
    alloc: Global,
    site: &Site,
    from: CellNo,
    goal: Goal,
) -> Result<Option<Path>, NoMemory>
    requires known { from.0 < site.now.cells }
    requires goal { IsGoal site.now goal }
    ensures { IfOk result (λ route. route ≡ least_walk (site_of site.now) (has_cell (goal_cells site.now goal)) (λ a. false) from) }
{
    let cells = goal_set(site, goal);
    match least_route(site, from, &cells, &CellSet::new(), alloc) {
        Ok(route) => Ok(Some(Path::copy_of(alloc, route.cells())?)),
        Err(RouteRefused::Unreachable) => Ok(None),
        Err(RouteRefused::NoMemory) => Err(NoMemory),
    }
}
