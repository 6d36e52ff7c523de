//! A check of a cycle.

ghost use Rattle.std.specs.Prelude.{◌≡◌, ◌↔◌, ◌<◌, ℕ, IsTrue};
ghost use Rattle.fleet_base.specs.EdgeSets.{leads};
ghost use Rattle.fleet_base.specs.Lists.{numbers_of};
ghost use Rattle.fleet_model.specs.Cycles.{is_cycle};
ghost use Rattle.cycle_cert.specs.Members.{leads_known};

use bit_set::word;
use fleet_base::edges::Edges;
use fleet_base::limits::MAX_ROBOTS;
use fleet_base::numbers::RobotNo;
use fleet_base::robot_list::RobotList;

/// Whether the list is a cycle: it isn't empty, its robots differ, each leads to the next, and the
/// last to the first.
pub fn check_cycle(edges: &Edges, cycle: &RobotList) -> bool
    ensures { IsTrue result ↔ ((r : ℕ) × IsTrue (is_cycle (leads edges.now) r (numbers_of cycle.now))) }
{
    let Some(first) = cycle.get(0) else {
        return false;
    };
    let mut next = first;
    let mut seen = 0;
    let mut place = cycle.len();
    while place > 0 {
        place -= 1;
        let Some(robot) = cycle.get(place) else {
            return false;
        };
        if !leads_on(edges, robot, next) || word::has(seen, robot.0) {
            return false;
        }
        seen = word::with(seen, robot.0);
        next = robot;
    }
    true
}

// Whether an edge leads from the first robot to the second. Only robots below 64 have edges.
fn leads_on(edges: &Edges, from: RobotNo, to: RobotNo) -> bool
    ensures { result ≡ leads_known edges.now from.0 to.0 }
{
    from.0 < MAX_ROBOTS && to.0 < MAX_ROBOTS && edges.has(from, to)
}
