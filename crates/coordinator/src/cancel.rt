//! The cancel of a pending route.

ghost use Rattle.std.specs.Prelude.{◌≡◌};
ghost use Rattle.fleet_model.specs.Calls.{cancel};
ghost use Rattle.coordinator.specs.Books.{book_after, state_of};

use crate::coordinator::Coordinator;
use fleet_base::answers::CancelRefused;
use fleet_base::entries::{Act, Entry};
use fleet_base::numbers::RobotNo;

impl Coordinator {
    /// Drops the robot's pending route. It takes no memory.
    pub fn cancel(&mut self, robot: RobotNo) -> Result<(), CancelRefused>
        ensures answer { result ≡ (cancel (state_of self.old) robot.0).answer }
        ensures book { self.new ≡ book_after result (cancel (state_of self.old) robot.0).entry self.old }
    {
        if robot.0 >= self.robots() {
            return Err(CancelRefused::UnknownRobot);
        }
        if !self.tables.is_waiting(robot) {
            return Err(CancelRefused::NoPending);
        }
        self.tables.drop_pending(robot);
        self.journal.push_reserved(Entry {
            robot,
            act: Act::Canceled,
        });
        Ok(())
    }
}
