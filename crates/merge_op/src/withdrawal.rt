//! How many of its last events a robot may take back.

ghost use Rattle.std.specs.Prelude.{◌≡◌, ◌<◌, length};
ghost use Rattle.fleet_model.specs.Plans.{Fleet, own, removable_tail, unfinished};
ghost use Rattle.fleet_model.specs.Good.{IsGoodPlan};
ghost use Rattle.site_map.specs.Claims.{site_of};
ghost use Rattle.merge_op.specs.Rests.{begins_step, IsFirstFree};

use event_graph::graph::EventGraph;
use fleet_base::numbers::{Kind, RobotNo};
use site_map::site::Site;

/// The number of events of the robot's longest removable tail: of its last events from a rest
/// point on, none of which another robot's event stands behind. 0 where it can take none back. The
/// graph is that of a good plan over the site. It takes no memory.
pub fn removable(site: &Site, graph: &EventGraph, robot: RobotNo) -> u32
    requires robot { robot.0 < graph.now.robots }
    requires groups { graph.now.groups ≡ (site_of site.now).groups }
    ensures { (m : Fleet) → IsGoodPlan m → m.site ≡ site_of site.now →
        unfinished m ≡ graph.now.events → result ≡ length (removable_tail m robot.0) }
{
    let first = first_free(site.cell_count(), graph, robot);
    graph.left(robot) - first
}

// The place of the first of the robot's last events that may go: a step begins with it, and no
// other robot's event stands behind it or behind one that follows. The robot's number of events
// where none may go.
fn first_free(cells: u32, graph: &EventGraph, robot: RobotNo) -> u32
    requires { robot.0 < graph.now.robots }
    ensures { IsFirstFree cells graph.now.groups graph.now.events
        (own robot.0 graph.now.events) 0 result }
{
    let left = graph.left(robot);
    let mut first = left;
    for place in (0..left).rev() {
        let Some(event) = graph.unfinished(robot, place) else {
            return first;
        };
        if graph.awaited(event.no) {
            return first;
        }
        if begins_step(cells, event.kind) {
            first = place;
        }
    }
    first
}

// Whether a step begins with this: with the acquire of its cell's own claim, or with the move where
// a link leads back to its cell. The claims of crossings are numbered behind those of cells.
fn begins_step(cells: u32, kind: Kind) -> bool
    ensures { result ≡ begins_step cells kind }
{
    match kind {
        Kind::Acquire(claim) => claim.0 < cells,
        Kind::Move(from, to) => from.0 == to.0,
        Kind::Release(_) => false,
    }
}
