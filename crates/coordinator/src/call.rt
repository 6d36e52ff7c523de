//! Any call, as a value.

ghost use Rattle.std.specs.Prelude.{◌≡◌, ◌≢◌, false, IfOk, OnErr, OnOk};
ghost use Rattle.std.specs.Option.{is_some, option_to_list};
ghost use Rattle.fleet_calls.specs.Calls.{answer_of, call_of, HasGoal};
ghost use Rattle.fleet_base.specs.declared.answers.ProposeRefused.TheVariants as propose_refused;
ghost use Rattle.fleet_model.specs.Calls.{Proposes, Replans, propose, replan, turn};
ghost use Rattle.route_plan.specs.Labels.{has};
ghost use Rattle.coordinator.specs.Books.{state_of, with_entries};

use crate::coordinator::Coordinator;
use fleet_base::answers::{ProposeRefused, ReplanRefused, RetryRefused};
use fleet_base::numbers::{CellNo, RobotNo};
use fleet_base::path::NoMemory;
use fleet_calls::answer::Answer;
use fleet_calls::request::Request;
use plan_events::expansion::needs;
use route_plan::cell_set::CellSet;
use route_plan::goals::goal_set;

impl Coordinator {
    /// Makes the call that the robot asks for. The answer is the machine's, and the journal grows by
    /// the call's entry, where it has one. Where no memory is left, nothing changes.
    pub fn call(&mut self, robot: RobotNo, request: &Request) -> Result<Answer, NoMemory>
        requires { HasGoal self.old.site request.now }
        ensures answer { IfOk result (λ answer. answer_of answer ≡ (turn (state_of self.old) robot.0 (call_of self.old.site request.now)).answer) }
        ensures book { OnOk result (self.new ≡ with_entries self.old (option_to_list (turn (state_of self.old) robot.0 (call_of self.old.site request.now)).entry)) }
        ensures unchanged { OnErr result (self.new ≡ self.old) }
    {
        match request {
            Request::Propose(route) => self.call_propose(robot, route.cells()),
            Request::Retry => match self.retry(robot) {
                Err(RetryRefused::NoMemory) => Err(NoMemory),
                answer => Ok(Answer::Retry(answer)),
            },
            Request::Cancel => Ok(Answer::Cancel(self.cancel(robot))),
            Request::Withdraw => Ok(Answer::Withdraw(self.withdraw(robot))),
            Request::Replan(goal) => {
                let cells = goal_set(&self.site, *goal);
                self.call_replan(robot, &cells)
            }
            Request::Report(event) => Ok(Answer::Report(self.report(robot, *event))),
            Request::Look => Ok(Answer::Look(self.look(robot))),
        }
    }

    /// Whether the call that the robot asks for would be accepted, want of memory aside. A look is
    /// not: it adds no entry.
    pub fn accepts(&self, robot: RobotNo, request: &Request) -> Result<bool, NoMemory>
        requires { HasGoal self.now.site request.now }
        ensures { IfOk result (λ yes. yes ≡ is_some (turn (state_of self.now) robot.0 (call_of self.now.site request.now)).entry) }
    {
        match request {
            Request::Propose(route) => Ok(self.accepts_proposal(robot, route.cells())),
            Request::Retry => match self.pending_steps(robot) {
                Ok(_) => Ok(true),
                Err(RetryRefused::NoMemory) => Err(NoMemory),
                Err(_) => Ok(false),
            },
            Request::Cancel => Ok(robot.0 < self.robots() && self.tables.is_waiting(robot)),
            Request::Withdraw => Ok(self.removal(robot).is_ok()),
            Request::Replan(goal) => {
                let cells = goal_set(&self.site, *goal);
                self.accepts_replan(robot, &cells)
            }
            Request::Report(event) => Ok(self.reportable(robot, *event).is_ok()),
            Request::Look => Ok(false),
        }
    }

    // A proposal, as a value.
    fn call_propose(&mut self, robot: RobotNo, cells: &[CellNo]) -> Result<Answer, NoMemory>
        ensures answer { IfOk result (λ answer. answer_of answer ≡ Proposes (propose (state_of self.old) robot.0 cells.now).answer) }
        ensures book { OnOk result (self.new ≡ with_entries self.old (option_to_list (propose (state_of self.old) robot.0 cells.now).entry)) }
        ensures unchanged { OnErr result (self.new ≡ self.old) }
    {
        match self.propose(robot, cells) {
            Ok(proposed) => Ok(Answer::Propose(Ok(proposed))),
            Err(refused) if lacks_memory(&refused) => Err(NoMemory),
            Err(refused) => Ok(Answer::Propose(Err(refused))),
        }
    }

    // A replan, as a value.
    fn call_replan(&mut self, robot: RobotNo, goal: &CellSet) -> Result<Answer, NoMemory>
        ensures answer { IfOk result (λ answer. answer_of answer ≡ Replans (replan (state_of self.old) robot.0 (has goal.now)).answer) }
        ensures book { OnOk result (self.new ≡ with_entries self.old (option_to_list (replan (state_of self.old) robot.0 (has goal.now)).entry)) }
        ensures unchanged { OnErr result (self.new ≡ self.old) }
    {
        match self.replan(robot, goal) {
            Ok(span) => Ok(Answer::Replan(Ok(span))),
            Err(ReplanRefused::NoMemory) => Err(NoMemory),
            Err(refused) => Ok(Answer::Replan(Err(refused))),
        }
    }

    // Whether the route would be merged or deferred.
    fn accepts_proposal(&self, robot: RobotNo, cells: &[CellNo]) -> bool
        ensures { result ≡ is_some (propose (state_of self.now) robot.0 cells.now).entry }
    {
        let Ok(events) = self.check_proposal(robot, cells) else {
            return false;
        };
        let needed = needs(&self.site, cells);
        match self.tables.blocker(robot, &needed) {
            None => !self.is_full(1 + events),
            Some(_) => !self.is_full(2),
        }
    }

    // Whether the robot would be led to the goal by a detour.
    fn accepts_replan(&self, robot: RobotNo, goal: &CellSet) -> Result<bool, NoMemory>
        ensures { IfOk result (λ yes. yes ≡ is_some (replan (state_of self.now) robot.0 (has goal.now)).entry) }
    {
        match self.detour_steps(robot, goal) {
            Ok(_) => Ok(true),
            Err(ReplanRefused::NoMemory) => Err(NoMemory),
            Err(_) => Ok(false),
        }
    }
}

// Whether a proposal is refused for want of memory.
fn lacks_memory(refused: &ProposeRefused) -> bool
    ensures { result ≡ false → refused.now ≢ propose_refused.NoMemory }
{
    matches!(refused, ProposeRefused::NoMemory)
}
