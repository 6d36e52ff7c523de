//! The policy, by what a look shows.

ghost use Rattle.std.specs.Prelude.{◌≡◌, ℕ};
ghost use Rattle.fleet_model.specs.Calls.{look_of};
ghost use Rattle.fleet_model.specs.States.{State};
ghost use Rattle.mission_model.specs.Policies.{doing_of};

use fleet_base::answers::{EventLook, Look, PendingLook};
use mission_model::doing::Doing;

/// What the policy picks for a robot that has this look, where the goal of a leg that is left is
/// taken as one that can be reached.
pub fn decide(look: &Look, leg_left: bool) -> Doing
    ensures { (s : State) (r : ℕ) → look.now ≡ look_of s r → result ≡ doing_of s r leg_left }
{
    if let EventLook::Ready { event, .. } = look.event {
        return Doing::Report(event);
    }
    match &look.pending {
        PendingLook::Free => Doing::Retry,
        PendingLook::Blocked(block) if leg_left && !block.cycle.is_empty() => Doing::Replan,
        PendingLook::Nothing if leg_left => Doing::Propose,
        _ => Doing::Rest,
    }
}
