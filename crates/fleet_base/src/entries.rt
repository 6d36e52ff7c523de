//! The entries of a journal.

use crate::numbers::{CellNo, EventNo, RobotNo};
use crate::path::Path;
use crate::robot_list::RobotList;

/// What an accepted call did, with its arguments and its answer.
#[derive(Drop)]
pub enum Act {
    /// A proposed route was merged; its first event has this number.
    Merged { route: Path, first: EventNo },
    /// A proposed route was deferred; the cycle of deferrals through the robot, empty where there
    /// is none.
    Deferred { route: Path, cycle: RobotList },
    /// The pending route was merged; its first event has this number.
    Retried { first: EventNo },
    /// The pending route was dropped.
    Canceled,
    /// So many of the robot's last events left the plan, and its end is then this cell.
    Withdrawn { removed: u32, end: CellNo },
    /// The pending route was replaced by this detour and merged; its first event has this number.
    Replanned { route: Path, first: EventNo },
    /// The event was reported.
    Reported { event: EventNo },
}

/// An accepted call of a robot.
#[derive(Drop)]
pub struct Entry {
    pub robot: RobotNo,
    pub act: Act,
}
