//! What the policy picks for a robot.

use fleet_base::numbers::EventNo;

/// What a robot does next, by the policy.
#[derive(Clone, Copy, Debug, PartialEq, Eq)]
pub enum Doing {
    /// It reports this event.
    Report(EventNo),
    /// It retries its pending route.
    Retry,
    /// It replans to the goal of its next leg.
    Replan,
    /// It proposes the least route to the goal of its next leg.
    Propose,
    /// It does nothing.
    Rest,
}
