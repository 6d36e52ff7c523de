//! Any call through a pass.

ghost use Rattle.std.specs.Prelude.{◌≡◌, IfOk};
ghost use Rattle.fleet_calls.specs.Calls.{answer_of, call_of, HasGoal};
ghost use Rattle.shared_fleet.specs.Tokens.{IsOf};
ghost use Rattle.shared_fleet.specs.Turning.{Does, HasTurn, IsOfKnown};

use crate::pass::Pass;
use crate::shared::SharedFleet;
use crate::turn::{begin, finish};
use fleet_base::path::NoMemory;
use fleet_calls::answer::Answer;
use fleet_calls::request::Request;
use std::sync::Wait;

impl SharedFleet {
    /// Makes the call that the pass's robot asks for, in a turn of its own.
    pub fn call<R: Wait>(
        &self,
        rt: &R,
        pass: &mut Pass,
        request: &Request,
    ) -> Result<Answer, NoMemory>
        requires own { IsOf self.now pass.old }
        requires goal { HasGoal self.now.opening.site request.now }
        ensures own { IsOf self.now pass.new }
        ensures robot { pass.new.robot ≡ pass.old.robot }
        ensures turn { HasTurn self.now (Does pass.old.robot (call_of self.now.opening.site request.now) result) pass.old pass.new }
        ensures known { IfOk result (λ answer. IsOfKnown (answer_of answer)) }
    {
        let robot = pass.robot();
        let mut fleet = begin(&self.lock, rt, &mut pass.seat);
        let answer = fleet.call(robot, request);
        pass.seen = finish(&self.lock, &mut pass.seat, fleet);
        answer
    }
}
