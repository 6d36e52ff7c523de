//! The retry of a pending route.

ghost use Rattle.std.specs.Prelude.{◌≡◌, ◌<◌, ◌^◌, List, None, Some, Ok, Err, IfOk, IfErr, length};
ghost use Rattle.fleet_base.specs.declared.answers.RetryRefused.TheVariants as retry_refused;
ghost use Rattle.fleet_base.specs.declared.entries.Act.TheVariants as act;
ghost use Rattle.fleet_base.specs.declared.numbers.CellNo.{CellNo};
ghost use Rattle.fleet_model.specs.Calls.{first_of, retry};
ghost use Rattle.fleet_model.specs.Sites.{steps};
ghost use Rattle.fleet_model.specs.States.{block_of, pending_of};
ghost use Rattle.plan_events.specs.Shapes.{shape_cause};
ghost use Rattle.site_map.specs.Claims.{site_of};
ghost use Rattle.coordinator.specs.Books.{book_after, IsAnswer, state_of};
ghost use Rattle.coordinator.specs.Merging.{span_from, WouldMerge};

use crate::coordinator::Coordinator;
use crate::merging::Merging;
use fleet_base::answers::{Block, RetryRefused};
use fleet_base::numbers::{CellNo, Kind, RobotNo, Span};
use plan_events::expansion::{expand, needs};
use plan_events::shape::check_shape;
use site_map::site::Site;

impl Coordinator {
    /// Merges the robot's pending route, where it has no blocker any more.
    pub fn retry(&mut self, robot: RobotNo) -> Result<Span, RetryRefused>
        ensures answer { IsAnswer retry_refused.NoMemory result (retry (state_of self.old) robot.0).answer }
        ensures book { self.new ≡ book_after result (retry (state_of self.old) robot.0).entry self.old }
    {
        let (kinds, end) = self.pending_steps(robot)?;
        match self.merge_route(robot, &kinds, end, Merging::Retried) {
            Ok(span) => Ok(span),
            Err(_) => Err(RetryRefused::NoMemory),
        }
    }

    // What the robot does in its pending route and where that ends, or why the route stays pending.
    pub(crate) fn pending_steps(&self, robot: RobotNo) -> Result<(Vec<Kind>, CellNo), RetryRefused>
        ensures refused { IfErr result (λ refused. IsAnswer retry_refused.NoMemory (Err refused)
            (retry (state_of self.now) robot.0).answer) }
        ensures due { IfOk result (λ p. (retry (state_of self.now) robot.0).answer
            ≡ Ok (span_from (first_of (state_of self.now)) p.0.items)) }
        ensures entry { IfOk result (λ p. (retry (state_of self.now) robot.0).entry
            ≡ Some (record { robot = robot; act = act.Retried (first_of (state_of self.now)) })) }
        ensures merges { IfOk result (λ p. WouldMerge (state_of self.now) robot.0 p.0.items p.1
            (act.Retried (first_of (state_of self.now)))) }
    {
        if robot.0 >= self.robots() {
            return Err(RetryRefused::UnknownRobot);
        }
        let Some(cells) = self.tables.deferrals.pending(robot) else {
            return Err(RetryRefused::NoPending);
        };
        if let Some(block) = self.pending_block(robot) {
            return Err(RetryRefused::StillDeferred(block));
        }
        if self.is_full(event_count(&self.site, cells)) {
            return Err(RetryRefused::Full);
        }
        match expand(self.alloc, &self.site, cells) {
            Ok(kinds) => Ok((kinds, cells[cells.len() - 1])),
            Err(_) => Err(RetryRefused::NoMemory),
        }
    }

    // The least blocker of the robot's pending route, with the cycle of deferrals.
    pub(crate) fn pending_block(&self, robot: RobotNo) -> Option<Block>
        requires { robot.0 < length self.now.starts }
        ensures { (route : List CellNo) → pending_of (state_of self.now) robot.0 ≡ Some route →
            result ≡ block_of (state_of self.now) robot.0 route }
    {
        let cells = self.tables.deferrals.pending(robot)?;
        let needed = needs(&self.site, cells);
        let blocker = self.tables.blocker(robot, &needed)?;
        Some(self.tables.block(robot, blocker))
    }
}

// How many events a route has.
pub(crate) fn event_count(site: &Site, cells: &[CellNo]) -> u64
    requires { shape_cause (site_of site.now) cells.now ≡ None }
    ensures count { result ≡ length (steps (site_of site.now) cells.now) }
    ensures small { result < 2 ^ 32 }
{
    match check_shape(site, cells) {
        Ok(events) => u64::from(events),
        Err(_) => 0,
    }
}
