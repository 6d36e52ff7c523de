//! The replan to a goal.

ghost use Rattle.std.specs.Prelude.{◌≡◌, Some, Ok, Err, IfOk, IfErr};
ghost use Rattle.fleet_base.specs.declared.entries.Act.TheVariants as act;
ghost use Rattle.fleet_model.specs.Calls.{first_of, replan};
ghost use Rattle.route_plan.specs.Labels.{has};
ghost use Rattle.coordinator.specs.Books.{book_after, state_of};
ghost use Rattle.coordinator.specs.Merging.{span_from, WouldMerge};
ghost use Rattle.coordinator.specs.Replans.{IsDetour, IsReplanAnswer};

use crate::coordinator::Coordinator;
use crate::merging::Merging;
use crate::retry::event_count;
use crate::shut::shut_cells;
use fleet_base::answers::ReplanRefused;
use fleet_base::numbers::{CellNo, Kind, RobotNo, Span};
use fleet_base::path::Path;
use plan_events::expansion::expand;
use route_plan::cell_set::CellSet;
use route_plan::finder::least_route;
use route_plan::refused::RouteRefused;
use route_plan::route::Route;

// A detour, what the robot does in it, and where that ends.
#[derive(Drop)]
pub(crate) struct Detour {
    route: Path,
    kinds: Vec<Kind>,
    end: CellNo,
}

impl Coordinator {
    /// Merges the robot's detour to the goal, in place of its pending route. The detour is the
    /// least route from the robot's end past each cell whose footprint conflicts with that of
    /// another robot's end. Cells of the goal that aren't cells of the site are never reached. The
    /// search takes memory, so its want may be told in the place of the answers behind it.
    pub fn replan(&mut self, robot: RobotNo, goal: &CellSet) -> Result<Span, ReplanRefused>
        ensures answer { IsReplanAnswer result (replan (state_of self.old) robot.0 (has goal.now)).answer }
        ensures book { self.new ≡ book_after result (replan (state_of self.old) robot.0 (has goal.now)).entry self.old }
    {
        let Detour { route, kinds, end } = self.detour_steps(robot, goal)?;
        match self.merge_route(robot, &kinds, end, Merging::Replanned(route)) {
            Ok(span) => Ok(span),
            Err(_) => Err(ReplanRefused::NoMemory),
        }
    }

    // The detour with what the robot does in it, or why the pending route stays.
    pub(crate) fn detour_steps(
        &self,
        robot: RobotNo,
        goal: &CellSet,
    ) -> Result<Detour, ReplanRefused>
        ensures refused { IfErr result (λ refused. IsReplanAnswer (Err refused)
            (replan (state_of self.now) robot.0 (has goal.now)).answer) }
        ensures due { IfOk result (λ d. (replan (state_of self.now) robot.0 (has goal.now)).answer
            ≡ Ok (span_from (first_of (state_of self.now)) d.kinds.items)) }
        ensures entry { IfOk result (λ d. (replan (state_of self.now) robot.0 (has goal.now)).entry
            ≡ Some (record { robot = robot; act = act.Replanned d.route (first_of (state_of self.now)) })) }
        ensures merges { IfOk result (λ d. WouldMerge (state_of self.now) robot.0 d.kinds.items d.end
            (act.Replanned d.route (first_of (state_of self.now)))) }
    {
        let route = self.detour(robot, goal)?;
        let cells = route.cells();
        if self.is_full(event_count(&self.site, cells)) {
            return Err(ReplanRefused::Full);
        }
        let Ok(kinds) = expand(self.alloc, &self.site, cells) else {
            return Err(ReplanRefused::NoMemory);
        };
        let Ok(path) = Path::copy_of(self.alloc, cells) else {
            return Err(ReplanRefused::NoMemory);
        };
        Ok(Detour {
            route: path,
            kinds,
            end: cells[cells.len() - 1],
        })
    }

    /// The robot's detour to the goal, which `replan` would merge; or why it would take none. Whether
    /// there is room for the detour isn't asked.
    pub fn detour(&self, robot: RobotNo, goal: &CellSet) -> Result<Route, ReplanRefused>
        ensures refused { IfErr result (λ refused. IsReplanAnswer (Err refused)
            (replan (state_of self.now) robot.0 (has goal.now)).answer) }
        ensures detour { IfOk result (λ route. IsDetour (state_of self.now) robot.0 (has goal.now) route.path) }
    {
        if robot.0 >= self.robots() {
            return Err(ReplanRefused::UnknownRobot);
        }
        if !self.tables.is_waiting(robot) {
            return Err(ReplanRefused::NoPending);
        }
        let end = self.end(robot);
        if goal.holds(end) {
            return Err(ReplanRefused::AtGoal);
        }
        let shut = shut_cells(&self.site, &self.tables.deferrals, robot);
        match least_route(&self.site, end, goal, &shut, self.alloc) {
            Ok(route) => Ok(route),
            Err(RouteRefused::Unreachable) => Err(ReplanRefused::NoDetour),
            Err(RouteRefused::NoMemory) => Err(ReplanRefused::NoMemory),
        }
    }
}
