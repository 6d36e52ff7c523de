//! The report of an event.

ghost use Rattle.std.specs.Prelude.{◌≡◌, IfErr, IfOk, Err};
ghost use Rattle.fleet_model.specs.Calls.{report};
ghost use Rattle.coordinator.specs.Books.{book_after, state_of};
ghost use Rattle.coordinator.specs.Endings.{IsReportable};

use crate::coordinator::Coordinator;
use fleet_base::answers::ReportRefused;
use fleet_base::entries::{Act, Entry};
use fleet_base::numbers::{Event, EventNo, RobotNo};

impl Coordinator {
    /// The robot has done its next event. It takes no memory.
    pub fn report(&mut self, robot: RobotNo, event: EventNo) -> Result<(), ReportRefused>
        ensures answer { result ≡ (report (state_of self.old) robot.0 event).answer }
        ensures book { self.new ≡ book_after result (report (state_of self.old) robot.0 event).entry self.old }
    {
        let next = self.reportable(robot, event)?;
        self.tables.finish(next);
        self.journal.push_reserved(Entry {
            robot,
            act: Act::Reported { event },
        });
        Ok(())
    }

    // The robot's next event, if it has this number and waits for no other.
    pub(crate) fn reportable(&self, robot: RobotNo, event: EventNo) -> Result<Event, ReportRefused>
        ensures found { IfOk result (IsReportable self.now robot.0 event) }
        ensures refused { IfErr result (λ e. (report (state_of self.now) robot.0 event).answer ≡ Err e) }
    {
        if robot.0 >= self.robots() {
            return Err(ReportRefused::UnknownRobot);
        }
        let next = match self.tables.graph.next(robot) {
            Some(next) if next.no == event => next,
            other => return Err(ReportRefused::NotNext {
                next: other.map(|e| e.no),
            }),
        };
        if let Some(on) = self.tables.graph.greatest_before(event) {
            return Err(ReportRefused::Early { on });
        }
        Ok(next)
    }
}
