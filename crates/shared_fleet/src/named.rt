//! The seven calls through passes, by their names.

ghost use Rattle.std.specs.Prelude.{◌≡◌, ◌≢◌, Ok, Err};
ghost use Rattle.fleet_base.specs.declared.answers.CancelRefused.TheVariants as cancel_refused;
ghost use Rattle.fleet_base.specs.declared.answers.ProposeRefused.TheVariants as propose_refused;
ghost use Rattle.fleet_base.specs.declared.answers.ReplanRefused.TheVariants as replan_refused;
ghost use Rattle.fleet_base.specs.declared.answers.ReportRefused.TheVariants as report_refused;
ghost use Rattle.fleet_base.specs.declared.answers.RetryRefused.TheVariants as retry_refused;
ghost use Rattle.fleet_base.specs.declared.answers.WithdrawRefused.TheVariants as withdraw_refused;
ghost use Rattle.fleet_model.specs.Calls.{cancel, look, propose, replan, report, retry, withdraw};
ghost use Rattle.route_plan.specs.Labels.{has};
ghost use Rattle.coordinator.specs.Books.{IsAnswer};
ghost use Rattle.coordinator.specs.Replans.{IsReplanAnswer};
ghost use Rattle.shared_fleet.specs.Tokens.{IsOf};
ghost use Rattle.shared_fleet.specs.Turning.{DoesStep, HasTurn};

use crate::pass::Pass;
use crate::shared::SharedFleet;
use crate::turn::{begin, finish};
use fleet_base::answers::{
    CancelRefused, Look, ProposeRefused, Proposed, ReplanRefused, ReportRefused, RetryRefused,
    WithdrawRefused, Withdrawn,
};
use fleet_base::numbers::{CellNo, EventNo, Span};
use route_plan::cell_set::CellSet;
use std::sync::Wait;

impl SharedFleet {
    /// The pass's robot proposes a route.
    pub fn propose<R: Wait>(
        &self,
        rt: &R,
        pass: &mut Pass,
        cells: &[CellNo],
    ) -> Result<Proposed, ProposeRefused>
        requires { IsOf self.now pass.old }
        ensures own { IsOf self.now pass.new }
        ensures robot { pass.new.robot ≡ pass.old.robot }
        ensures turn { HasTurn self.now (DoesStep (IsAnswer propose_refused.NoMemory) (λ s. propose s pass.old.robot cells.now) result) pass.old pass.new }
        ensures known { result ≢ Err propose_refused.UnknownRobot }
    {
        let robot = pass.robot();
        let mut fleet = begin(&self.lock, rt, &mut pass.seat);
        let answer = fleet.propose(robot, cells);
        pass.seen = finish(&self.lock, &mut pass.seat, fleet);
        answer
    }

    /// The pass's robot tries its pending route again.
    pub fn retry<R: Wait>(&self, rt: &R, pass: &mut Pass) -> Result<Span, RetryRefused>
        requires { IsOf self.now pass.old }
        ensures own { IsOf self.now pass.new }
        ensures robot { pass.new.robot ≡ pass.old.robot }
        ensures turn { HasTurn self.now (DoesStep (IsAnswer retry_refused.NoMemory) (λ s. retry s pass.old.robot) result) pass.old pass.new }
        ensures known { result ≢ Err retry_refused.UnknownRobot }
    {
        let robot = pass.robot();
        let mut fleet = begin(&self.lock, rt, &mut pass.seat);
        let answer = fleet.retry(robot);
        pass.seen = finish(&self.lock, &mut pass.seat, fleet);
        answer
    }

    /// The pass's robot drops its pending route.
    pub fn cancel<R: Wait>(&self, rt: &R, pass: &mut Pass) -> Result<(), CancelRefused>
        requires { IsOf self.now pass.old }
        ensures own { IsOf self.now pass.new }
        ensures robot { pass.new.robot ≡ pass.old.robot }
        ensures turn { HasTurn self.now (DoesStep (λ told due. told ≡ due) (λ s. cancel s pass.old.robot) result) pass.old pass.new }
        ensures known { result ≢ Err cancel_refused.UnknownRobot }
    {
        let robot = pass.robot();
        let mut fleet = begin(&self.lock, rt, &mut pass.seat);
        let answer = fleet.cancel(robot);
        pass.seen = finish(&self.lock, &mut pass.seat, fleet);
        answer
    }

    /// The pass's robot takes its last events back, as many as may be.
    pub fn withdraw<R: Wait>(&self, rt: &R, pass: &mut Pass) -> Result<Withdrawn, WithdrawRefused>
        requires { IsOf self.now pass.old }
        ensures own { IsOf self.now pass.new }
        ensures robot { pass.new.robot ≡ pass.old.robot }
        ensures turn { HasTurn self.now (DoesStep (λ told due. told ≡ due) (λ s. withdraw s pass.old.robot) result) pass.old pass.new }
        ensures known { result ≢ Err withdraw_refused.UnknownRobot }
    {
        let robot = pass.robot();
        let mut fleet = begin(&self.lock, rt, &mut pass.seat);
        let answer = fleet.withdraw(robot);
        pass.seen = finish(&self.lock, &mut pass.seat, fleet);
        answer
    }

    /// The pass's robot replaces its pending route by a detour to the goal.
    pub fn replan<R: Wait>(
        &self,
        rt: &R,
        pass: &mut Pass,
        goal: &CellSet,
    ) -> Result<Span, ReplanRefused>
        requires { IsOf self.now pass.old }
        ensures own { IsOf self.now pass.new }
        ensures robot { pass.new.robot ≡ pass.old.robot }
        ensures turn { HasTurn self.now (DoesStep IsReplanAnswer (λ s. replan s pass.old.robot (has goal.now)) result) pass.old pass.new }
        ensures known { result ≢ Err replan_refused.UnknownRobot }
    {
        let robot = pass.robot();
        let mut fleet = begin(&self.lock, rt, &mut pass.seat);
        let answer = fleet.replan(robot, goal);
        pass.seen = finish(&self.lock, &mut pass.seat, fleet);
        answer
    }

    /// The pass's robot has done its next event.
    pub fn report<R: Wait>(
        &self,
        rt: &R,
        pass: &mut Pass,
        event: EventNo,
    ) -> Result<(), ReportRefused>
        requires { IsOf self.now pass.old }
        ensures own { IsOf self.now pass.new }
        ensures robot { pass.new.robot ≡ pass.old.robot }
        ensures turn { HasTurn self.now (DoesStep (λ told due. told ≡ due) (λ s. report s pass.old.robot event) result) pass.old pass.new }
        ensures known { result ≢ Err report_refused.UnknownRobot }
    {
        let robot = pass.robot();
        let mut fleet = begin(&self.lock, rt, &mut pass.seat);
        let answer = fleet.report(robot, event);
        pass.seen = finish(&self.lock, &mut pass.seat, fleet);
        answer
    }

    /// What the pass's robot sees of itself.
    pub fn look<R: Wait>(&self, rt: &R, pass: &mut Pass) -> Look
        requires { IsOf self.now pass.old }
        ensures own { IsOf self.now pass.new }
        ensures robot { pass.new.robot ≡ pass.old.robot }
        ensures turn { HasTurn self.now (DoesStep (λ told due. told ≡ due) (λ s. look s pass.old.robot) (Ok result)) pass.old pass.new }
    {
        let robot = pass.robot();
        let fleet = begin(&self.lock, rt, &mut pass.seat);
        let answer = fleet.look(robot);
        pass.seen = finish(&self.lock, &mut pass.seat, fleet);
        answer.unwrap()
    }
}
