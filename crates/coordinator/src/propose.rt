//! The proposal of a route.

ghost use Rattle.std.specs.Prelude.{◌≡◌, ◌<◌, ◌^◌, None, IfOk, length};
ghost use Rattle.fleet_base.specs.declared.answers.ProposeRefused.TheVariants as propose_refused;
ghost use Rattle.fleet_model.specs.Calls.{deferring, propose};
ghost use Rattle.fleet_model.specs.States.{block_of};
ghost use Rattle.fleet_model.specs.Sites.{steps};
ghost use Rattle.site_map.specs.Claims.{site_of};
ghost use Rattle.coordinator.specs.Books.{book_after, IsAnswer, state_of};
ghost use Rattle.coordinator.specs.Proposals.{early_cause, of_shape, refused_or, WouldDefer};

use crate::coordinator::Coordinator;
use crate::merging::{Merging, put_mark};
use fleet_base::answers::{Blocker, ProposeRefused, Proposed};
use fleet_base::claim_set::ClaimSet;
use fleet_base::entries::{Act, Entry};
use fleet_base::numbers::{CellNo, RobotNo};
use fleet_base::path::Path;
use plan_events::expansion::{expand, needs};
use plan_events::refused::ShapeRefused;
use plan_events::shape::check_shape;

impl Coordinator {
    /// Merges the route, where it has no blocker, or keeps it as the robot's pending one.
    pub fn propose(&mut self, robot: RobotNo, cells: &[CellNo]) -> Result<Proposed, ProposeRefused>
        ensures answer { IsAnswer propose_refused.NoMemory result (propose (state_of self.old) robot.0 cells.now).answer }
        ensures book { self.new ≡ book_after result (propose (state_of self.old) robot.0 cells.now).entry self.old }
    {
        let events = self.check_proposal(robot, cells)?;
        let needed = needs(&self.site, cells);
        match self.tables.blocker(robot, &needed) {
            None => self.merge_proposal(robot, cells, events),
            Some(blocker) => self.defer_proposal(robot, cells, needed, blocker),
        }
    }

    // Merges a route that has no blocker.
    fn merge_proposal(
        &mut self,
        robot: RobotNo,
        cells: &[CellNo],
        events: u64,
    ) -> Result<Proposed, ProposeRefused>
        requires early { early_cause (state_of self.old) robot.0 cells.now ≡ None }
        requires events { events ≡ length (steps (site_of self.old.site) cells.now) }
        requires small { events < 2 ^ 32 }
        requires free { block_of (deferring (state_of self.old) robot.0 cells.now) robot.0 cells.now ≡ None }
        ensures answer { IsAnswer propose_refused.NoMemory result (propose (state_of self.old) robot.0 cells.now).answer }
        ensures book { self.new ≡ book_after result (propose (state_of self.old) robot.0 cells.now).entry self.old }
    {
        if self.is_full(1 + events) {
            return Err(ProposeRefused::Full);
        }
        let Ok(kinds) = expand(self.alloc, &self.site, cells) else {
            return Err(ProposeRefused::NoMemory);
        };
        let Ok(route) = Path::copy_of(self.alloc, cells) else {
            return Err(ProposeRefused::NoMemory);
        };
        let end = cells[cells.len() - 1];
        match self.merge_route(robot, &kinds, end, Merging::Proposed(route)) {
            Ok(span) => Ok(Proposed::Merged(span)),
            Err(_) => Err(ProposeRefused::NoMemory),
        }
    }

    // Keeps a route that needs these claims and has this blocker. It takes beforehand the room of
    // the entries that are owed then.
    fn defer_proposal(
        &mut self,
        robot: RobotNo,
        cells: &[CellNo],
        needed: ClaimSet,
        blocker: Blocker,
    ) -> Result<Proposed, ProposeRefused>
        requires { WouldDefer self.old robot.0 cells.now needed blocker }
        ensures answer { IsAnswer propose_refused.NoMemory result (propose (state_of self.old) robot.0 cells.now).answer }
        ensures book { self.new ≡ book_after result (propose (state_of self.old) robot.0 cells.now).entry self.old }
    {
        if self.is_full(2) {
            return Err(ProposeRefused::Full);
        }
        let mark = self.new_mark(2);
        let (Ok(route), Ok(pending), Ok(()), Ok(())) = (
            Path::copy_of(self.alloc, cells),
            Path::copy_of(self.alloc, cells),
            self.journal.reserve(self.tables.owed as usize + 2),
            self.marks.reserve(1),
        ) else {
            return Err(ProposeRefused::NoMemory);
        };
        self.tables.defer(robot, pending, needed);
        let block = self.tables.block(robot, blocker);
        put_mark(&mut self.marks, mark);
        self.journal.push_reserved(Entry {
            robot,
            act: Act::Deferred {
                route,
                cycle: block.cycle,
            },
        });
        Ok(Proposed::Deferred(block))
    }

    // The number of events of the proposed route; or the first cause for which no plan of the other
    // robots would take it.
    pub(crate) fn check_proposal(
        &self,
        robot: RobotNo,
        cells: &[CellNo],
    ) -> Result<u64, ProposeRefused>
        ensures answer { result ≡ refused_or (early_cause (state_of self.now) robot.0 cells.now)
            (length (steps (site_of self.now.site) cells.now)) }
        ensures small { IfOk result (λ events. events < 2 ^ 32) }
    {
        if robot.0 >= self.robots() {
            return Err(ProposeRefused::UnknownRobot);
        }
        if self.tables.is_waiting(robot) {
            return Err(ProposeRefused::HasPending);
        }
        let events = match check_shape(&self.site, cells) {
            Ok(events) => u64::from(events),
            Err(refused) => return Err(of_shape(refused)),
        };
        let end = self.tables.robots.end(robot);
        if cells[0] != end {
            return Err(ProposeRefused::BadStart { end });
        }
        Ok(events)
    }
}

// The refusal of a proposal for its shape.
fn of_shape(refused: ShapeRefused) -> ProposeRefused
    ensures { result ≡ of_shape refused }
{
    match refused {
        ShapeRefused::Short => ProposeRefused::Short,
        ShapeRefused::TooLong => ProposeRefused::TooLong,
        ShapeRefused::UnknownCell { at } => ProposeRefused::UnknownCell { at },
        ShapeRefused::NoLink { at } => ProposeRefused::NoLink { at },
        ShapeRefused::NoMemory => ProposeRefused::NoMemory,
    }
}
