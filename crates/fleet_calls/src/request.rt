//! What a robot asks of the coordinator.

use fleet_base::numbers::EventNo;
use fleet_base::path::Path;
use site_map::goal::Goal;

/// What a robot asks, which is the coordinator's call of that name.
#[derive(Drop)]
pub enum Request {
    /// To take this route, whose cells stand in order.
    Propose(Path),
    /// To try the pending route again.
    Retry,
    /// To drop the pending route.
    Cancel,
    /// To take the last events of the robot back, as many as may be.
    Withdraw,
    /// To replace the pending route by a detour to this goal.
    Replan(Goal),
    /// To take the event as done.
    Report(EventNo),
    /// To say how the robot stands.
    Look,
}
