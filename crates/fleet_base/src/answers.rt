//! What the calls answer.

use crate::numbers::{CellNo, ClaimNo, EventNo, Kind, RobotNo, Span};
use crate::robot_list::RobotList;

/// The robot's number isn't below the number of robots.
#[derive(Clone, Copy, Debug, PartialEq, Eq)]
pub struct UnknownRobot;

/// What keeps a route from being merged: a claim that it needs, and another robot whose end keeps
/// the claim.
#[derive(Clone, Copy, Debug, PartialEq, Eq)]
pub struct Blocker {
    pub claim: ClaimNo,
    pub by: RobotNo,
}

/// Why a route can't be merged: the least claim that it needs and that another robot's end keeps
/// from it, the least such robot, and the cycle of deferrals through the caller, empty where there
/// is none.
#[derive(Clone, Copy, Debug, PartialEq, Eq)]
pub struct Block {
    pub claim: ClaimNo,
    pub by: RobotNo,
    pub cycle: RobotList,
}

/// What became of a proposed route.
#[derive(Clone, Copy, Debug, PartialEq, Eq)]
pub enum Proposed {
    /// It was merged, with events of these numbers.
    Merged(Span),
    /// It is pending.
    Deferred(Block),
}

/// Why a proposal is refused; the first cause in this order.
#[derive(Clone, Copy, Debug, PartialEq, Eq)]
pub enum ProposeRefused {
    /// There is no such robot.
    UnknownRobot,
    /// The robot has a pending route.
    HasPending,
    /// Fewer than 2 cells.
    Short,
    /// More than 1,024 cells.
    TooLong,
    /// The first place, from 0, that names no cell of the site.
    UnknownCell { at: u32 },
    /// The first place whose cell isn't linked from the cell before it.
    NoLink { at: u32 },
    /// The route doesn't begin at the robot's end, which is handed back.
    BadStart { end: CellNo },
    /// No room is left below the cap.
    Full,
    /// No memory was left.
    NoMemory,
}

/// Why a retry is refused; the first cause in this order.
#[derive(Clone, Copy, Debug, PartialEq, Eq)]
pub enum RetryRefused {
    /// There is no such robot.
    UnknownRobot,
    /// The robot has no pending route.
    NoPending,
    /// The pending route has a blocker.
    StillDeferred(Block),
    /// No room is left below the cap.
    Full,
    /// No memory was left.
    NoMemory,
}

/// Why a cancel is refused; the first cause in this order.
#[derive(Clone, Copy, Debug, PartialEq, Eq)]
pub enum CancelRefused {
    /// There is no such robot.
    UnknownRobot,
    /// The robot has no pending route.
    NoPending,
}

/// What a withdrawal removed: so many events, and the robot's end is then this cell.
#[derive(Clone, Copy, Debug, PartialEq, Eq)]
pub struct Withdrawn {
    pub removed: u32,
    pub end: CellNo,
}

/// Why a withdrawal is refused; the first cause in this order.
#[derive(Clone, Copy, Debug, PartialEq, Eq)]
pub enum WithdrawRefused {
    /// There is no such robot.
    UnknownRobot,
    /// The robot's removable tail is empty.
    Nothing,
}

/// Why a replan is refused; the first cause in this order.
#[derive(Clone, Copy, Debug, PartialEq, Eq)]
pub enum ReplanRefused {
    /// There is no such robot.
    UnknownRobot,
    /// The robot has no pending route.
    NoPending,
    /// The robot's end is in the goal.
    AtGoal,
    /// No walk leads to the goal past the other robots' ends.
    NoDetour,
    /// No room is left below the cap.
    Full,
    /// No memory was left.
    NoMemory,
}

/// Why a report is refused; the first cause in this order.
#[derive(Clone, Copy, Debug, PartialEq, Eq)]
pub enum ReportRefused {
    /// There is no such robot.
    UnknownRobot,
    /// The event isn't the robot's first unfinished one, which is handed back.
    NotNext { next: Option<EventNo> },
    /// The event waits for releases that aren't finished, the last of which is handed back.
    Early { on: EventNo },
}

/// A robot's next event.
#[derive(Clone, Copy, Debug, PartialEq, Eq)]
pub enum EventLook {
    /// The robot has no unfinished event.
    Nothing,
    /// The event may be reported.
    Ready { event: EventNo, kind: Kind },
    /// The event waits for releases that aren't finished, the last of which is `on`.
    Waits { event: EventNo, on: EventNo },
}

/// A robot's pending route.
#[derive(Clone, Copy, Debug, PartialEq, Eq)]
pub enum PendingLook {
    /// The robot has none.
    Nothing,
    /// It has no blocker.
    Free,
    /// It has a blocker.
    Blocked(Block),
}

/// What a look shows of a robot.
#[derive(Clone, Copy, Debug, PartialEq, Eq)]
pub struct Look {
    /// The cell that it is in, by what was reported.
    pub at: CellNo,
    /// The cell that it is in after all its events in the plan.
    pub end: CellNo,
    /// The number of its unfinished events.
    pub left: u32,
    /// Its first unfinished event.
    pub event: EventLook,
    /// Its pending route.
    pub pending: PendingLook,
}
