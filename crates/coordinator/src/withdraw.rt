//! The withdrawal of events.

ghost use Rattle.std.specs.Prelude.{◌≡◌, ◌<◌, ◌≤◌, length, IfErr, IfOk, Err};
ghost use Rattle.fleet_model.specs.Plans.{own, unfinished};
ghost use Rattle.fleet_model.specs.Calls.{withdraw};
ghost use Rattle.coordinator.specs.Books.{book_after, state_of};
ghost use Rattle.coordinator.specs.Endings.{end_without, target_of, IsRemoval};

use crate::coordinator::Coordinator;
use fleet_base::answers::{WithdrawRefused, Withdrawn};
use fleet_base::entries::{Act, Entry};
use fleet_base::numbers::{CellNo, Event, Kind, RobotNo};
use merge_op::withdrawal::removable;

impl Coordinator {
    /// Takes the robot's longest removable tail out of the plan, and drops its pending route. It
    /// takes no memory.
    pub fn withdraw(&mut self, robot: RobotNo) -> Result<Withdrawn, WithdrawRefused>
        ensures answer { result ≡ (withdraw (state_of self.old) robot.0).answer }
        ensures book { self.new ≡ book_after result (withdraw (state_of self.old) robot.0).entry self.old }
    {
        let found = self.removal(robot)?;
        self.tables.cut(&self.site, robot, found.removed, found.end);
        self.journal.push_reserved(Entry {
            robot,
            act: Act::Withdrawn {
                removed: found.removed,
                end: found.end,
            },
        });
        Ok(found)
    }

    // What a withdrawal removes, and the cell in which the robot then ends.
    pub(crate) fn removal(&self, robot: RobotNo) -> Result<Withdrawn, WithdrawRefused>
        ensures found { IfOk result (IsRemoval self.now robot.0) }
        ensures refused { IfErr result (λ e. (withdraw (state_of self.now) robot.0).answer ≡ Err e) }
    {
        if robot.0 >= self.robots() {
            return Err(WithdrawRefused::UnknownRobot);
        }
        let removed = removable(&self.site, &self.tables.graph, robot);
        if removed == 0 {
            return Err(WithdrawRefused::Nothing);
        }
        let end = self.end_before(robot, removed);
        Ok(Withdrawn { removed, end })
    }

    // The cell in which the robot would end without its last events, so many.
    fn end_before(&self, robot: RobotNo, count: u32) -> CellNo
        requires known { robot.0 < length self.now.starts }
        requires few { count ≤ length (own robot.0 (unfinished (state_of self.now).fleet)) }
        ensures { result ≡ end_without (state_of self.now).fleet robot.0 count }
    {
        for place in (0..self.left(robot) - count).rev() {
            if let Some(to) = target_of(self.unfinished(robot, place)) {
                return to;
            }
        }
        self.at(robot)
    }
}

// The cell that the event moves to, where there is an event and it is a move.
fn target_of(event: Option<Event>) -> Option<CellNo>
    ensures { result ≡ target_of event }
{
    match event {
        Some(event) => match event.kind {
            Kind::Move(_, to) => Some(to),
            Kind::Acquire(_) | Kind::Release(_) => None,
        },
        None => None,
    }
}
