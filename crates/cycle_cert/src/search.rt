//! The shortest cycle through a robot.

ghost use Rattle.std.specs.Prelude.{◌≡◌, ◌<◌, ◌≤◌, ℕ, true};
ghost use Rattle.fleet_base.specs.EdgeSets.{leads};
ghost use Rattle.fleet_base.specs.Lists.{numbers_of};
ghost use Rattle.fleet_model.specs.Cycles as model;
ghost use Rattle.bit_set.specs.Words.{is_in};
ghost use Rattle.cycle_cert.specs.Ways.{Returns, IsLeastWay, AreLevels, IsWayShown};

use crate::rows::{before, next_in, sources_of};
use bit_set::word;
use fleet_base::edges::Edges;
use fleet_base::limits::MAX_ROBOTS;
use fleet_base::numbers::RobotNo;
use fleet_base::robot_list::RobotList;

/// The shortest cycle through the robot, and of the shortest ones the least as a list of numbers:
/// it begins with the robot, each robot of it leads to the next, and the last to the first. Empty
/// exactly where there is none. It takes no memory.
pub fn cycle_through(edges: &Edges, robot: RobotNo) -> RobotList
    requires { robot.0 < MAX_ROBOTS }
    ensures least { model.IsLeastCycle (leads edges.now) robot.0 (numbers_of result) }

    // Where edges lead to robots below n alone, it is the cycle that the model finds.
    ensures found { (n : ℕ) → ((r q : ℕ) → leads edges.now r q ≡ true → q < n)
        → numbers_of result ≡ model.cycle_through n (leads edges.now) robot.0 }
{
    let sources = sources_of(edges);
    let mut levels = [0; 64];
    let mut level = before(edges, sources, word::with(0, robot.0));
    let mut seen = 0;
    for between in 0..MAX_ROBOTS {
        if word::has(level, robot.0) {
            return way_back(edges, &levels, robot, between);
        }
        // Where no robot is new, none is in any later level.
        let reached = seen | level;
        if reached == seen {
            return RobotList::new();
        }
        seen = reached;
        levels[between as usize] = level;
        level = before(edges, sources, level);
    }
    RobotList::new()
}

// The least way back to the robot with so many others between. The levels say from which robots
// it is reached over how many.
fn way_back(edges: &Edges, levels: &[u64; 64], robot: RobotNo, between: u32) -> RobotList
    requires known { robot.0 < MAX_ROBOTS }
    requires short { between < 64 }
    requires leveled { AreLevels (leads edges.now) robot.0 levels.now between }
    requires returns { Returns (leads edges.now) robot.0 between robot.0 }
    ensures { IsWayShown (leads edges.now) robot.0 between (numbers_of result) }
{
    let mut cycle = RobotList::new();
    cycle.push(robot);
    let mut at = robot;
    let mut left = between;
    while left > 0 {
        left -= 1;
        at = next_of(edges, levels[left as usize], at);
        cycle.push(at);
    }
    cycle
}

// The least robot of the level that this one leads to.
fn next_of(edges: &Edges, level: u64, at: RobotNo) -> RobotNo
    requires known { at.0 < MAX_ROBOTS }
    requires some { (q : ℕ) × (leads edges.now at.0 q ≡ true) × (is_in level q ≡ true) }
    ensures follows { leads edges.now at.0 result.0 ≡ true }
    ensures inside { is_in level result.0 ≡ true }
    ensures least { (q : ℕ) → leads edges.now at.0 q ≡ true → is_in level q ≡ true → result.0 ≤ q }
{
    next_in(edges, at, level).unwrap()
}
