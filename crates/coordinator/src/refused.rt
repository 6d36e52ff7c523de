//! Why a coordinator isn't made.

use fleet_base::numbers::{ClaimNo, RobotNo};

/// Why a coordinator doesn't go on from a checkpoint; the first cause in this order.
#[derive(Clone, Copy, Debug, PartialEq, Eq)]
pub enum ResumeRefused {
    /// No coordinator has these starts.
    New(NewRefused),
    /// The number isn't from 1 to 100,000,000,000,000.
    BadNext,
    /// The least robot whose pending route isn't a legal route from its cell.
    BadPending(RobotNo),
    /// More routes are pending than the cap has room for.
    Crowded,
    /// No memory was left.
    NoMemory,
}

/// Why a coordinator isn't made; the first cause in this order.
#[derive(Clone, Copy, Debug, PartialEq, Eq)]
pub enum NewRefused {
    /// There are no starts.
    NoRobot,
    /// The footprints of two robots' starts conflict: the first pair of robots for which they do,
    /// and the least claim of the first one's start that conflicts with one of the other's.
    Clash {
        /// The lesser robot.
        one: RobotNo,
        /// The greater robot.
        other: RobotNo,
        /// A claim of the lesser robot's start.
        claim: ClaimNo,
    },
    /// No memory was left.
    NoMemory,
}
