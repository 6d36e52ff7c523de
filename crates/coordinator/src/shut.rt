//! The cells that are shut to a robot.

ghost use Rattle.std.specs.Prelude.{◌≡◌, ◌<◌, List, length};
ghost use Rattle.std.specs.FinSet as set;
ghost use Rattle.std.specs.List.{list_any};
ghost use Rattle.fleet_base.specs.declared.numbers.CellNo.{CellNo};
ghost use Rattle.deferral.specs.Backlogs.{is_kept_from};
ghost use Rattle.site_map.specs.Claims.{site_of};
ghost use Rattle.coordinator.specs.Replans.{is_shut_in};

use deferral::Deferrals;
use fleet_base::numbers::{CellNo, ClaimNo, RobotNo};
use route_plan::cell_set::CellSet;
use site_map::site::Site;

// The cells whose footprints have a claim that another robot's end keeps.
pub(crate) fn shut_cells(site: &Site, deferrals: &Deferrals, robot: RobotNo) -> CellSet
    requires { robot.0 < length deferrals.now.pending }
    ensures { (a : CellNo) → set.contains result a.0 ≡ is_shut_in deferrals.now (site_of site.now) robot.0 a }
{
    let mut shut = CellSet::new();
    for number in 0..site.cell_count() {
        let cell = CellNo(number);
        let footprint = site.footprint(cell);
        if keeps_any(deferrals, robot, footprint.list()) {
            shut.put(cell);
        }
    }
    shut
}

// Whether another robot's end keeps one of these claims.
fn keeps_any(deferrals: &Deferrals, robot: RobotNo, claims: &[ClaimNo]) -> bool
    requires { robot.0 < length deferrals.now.pending }
    ensures { result ≡ list_any (λ c. is_kept_from deferrals.now robot.0 c.0) claims.now }
{
    for claim in claims {
        if deferrals.is_kept_from(robot, *claim) {
            return true;
        }
    }
    false
}
