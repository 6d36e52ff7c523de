//! How a robot stands with its mission.

use fleet_base::robot_list::RobotList;

/// How a robot stands with its mission: the first of these that applies.
#[derive(Clone, Copy, Debug)]
pub enum Outcome {
    /// It can go on.
    Active,
    /// It has an unfinished event.
    Waiting,
    /// It has no pending route and no leg left.
    Done,
    /// It has no pending route, and no route leads to the goal of its next leg.
    Unreachable,
    /// No room is left for what it would do.
    Full,
    /// It is on this cycle of deferrals.
    InCycle(RobotList),
    /// Its pending route is blocked by the first of these robots, that robot's by the next, and so on.
    Behind(RobotList),
}
