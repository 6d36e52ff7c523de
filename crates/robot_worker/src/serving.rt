//! Which legs are served.

ghost use Rattle.std.specs.Prelude.{◌≡◌, ◌≤◌, length, slice_get, All};
ghost use Rattle.fleet_base.specs.declared.limits.TheConstants.{MAX_LEGS};
ghost use Rattle.mission_model.specs.Stops.{serve_on as served_on};
ghost use Rattle.site_map.specs.Goals.{IsGoal};
ghost use Rattle.robot_worker.specs.Legs.{plain_legs};

use fleet_base::numbers::CellNo;
use site_map::goal::{Goal, goal_holds};
use site_map::site::Site;

/// Serves on from a count at a cell: as long as a leg is left and the next leg's goal contains the
/// cell, that leg is served.
pub fn serve_on(site: &Site, legs: &[Goal], count: u32, cell: CellNo) -> u32
    requires few { length legs.now ≤ MAX_LEGS }
    requires goals { All (IsGoal site.now) legs.now }
    ensures { result ≡ served_on (plain_legs site.now legs.now) cell count }
{
    let mut served = count;
    while (served as usize) < legs.len() && goal_holds(site, legs[served as usize], cell) {
        served += 1;
    }
    served
}

/// The leg at this place, from 0; none where there are no more.
pub fn leg_at(legs: &[Goal], place: u32) -> Option<Goal>
    ensures { result ≡ slice_get legs.now place }
{
    legs.get(place as usize).copied()
}
