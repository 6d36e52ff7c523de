//! What a robot sees.

ghost use Rattle.std.specs.Prelude.{◌≡◌, ◌<◌, length, slice_index_or};
ghost use Rattle.fleet_model.specs.Calls.{look, look_at_next, look_at_pending, next_event};
ghost use Rattle.fleet_model.specs.States.{block_of, pending_of, pending_route};
ghost use Rattle.coordinator.specs.Books.{state_of};

use crate::coordinator::Coordinator;
use fleet_base::answers::{EventLook, Look, PendingLook, UnknownRobot};
use fleet_base::numbers::RobotNo;

impl Coordinator {
    /// What the robot sees of itself. A look adds no entry.
    pub fn look(&self, robot: RobotNo) -> Result<Look, UnknownRobot>
        ensures { result ≡ (look (state_of self.now) robot.0).answer }
    {
        if robot.0 >= self.robots() {
            return Err(UnknownRobot);
        }
        Ok(Look {
            at: self.at(robot),
            end: self.end(robot),
            left: self.left(robot),
            event: self.event_look(robot),
            pending: self.pending_look(robot),
        })
    }

    // The robot's next event, and what it waits for.
    fn event_look(&self, robot: RobotNo) -> EventLook
        requires { robot.0 < length self.now.starts }
        ensures { result ≡ look_at_next (state_of self.now).fleet (next_event (state_of self.now).fleet robot.0) }
    {
        let Some(next) = self.tables.graph.next(robot) else {
            return EventLook::Nothing;
        };
        match self.tables.graph.greatest_before(next.no) {
            None => EventLook::Ready {
                event: next.no,
                kind: next.kind,
            },
            Some(on) => EventLook::Waits { event: next.no, on },
        }
    }

    // The robot's pending route, and what blocks it.
    fn pending_look(&self, robot: RobotNo) -> PendingLook
        requires { robot.0 < length self.now.starts }
        ensures { result ≡ look_at_pending (pending_of (state_of self.now) robot.0)
            (block_of (state_of self.now) robot.0 (pending_route (state_of self.now) robot.0)) }
    {
        if !self.tables.is_waiting(robot) {
            return PendingLook::Nothing;
        }
        match self.pending_block(robot) {
            None => PendingLook::Free,
            Some(block) => PendingLook::Blocked(block),
        }
    }
}
