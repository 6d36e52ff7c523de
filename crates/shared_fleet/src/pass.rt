//! One robot's token.

ghost use Rattle.std.specs.Prelude.{◌≡◌, length};

use crate::kept::Kept;
use fleet_base::numbers::RobotNo;
use std::marker::Model;
use turn_lock::TurnSeat;

/// One robot's token at a shared fleet. Contracts see which fleet it is of, how many turns it has
/// had, what it has seen of the journal, and which entries behind the opening ones are its own.
#[derive(Drop)]
pub struct Pass {
    pub(crate) seat: TurnSeat<Kept>,
    pub(crate) seen: u64,
}

impl Model for Pass {
    ghost use Rattle.std.specs.Prelude.{◌≡◌, length};
    ghost use Rattle.shared_fleet.specs.Tokens.{Token};

    ghost Value = { Token };

    ghost use Rattle.shared_fleet.specs.Resting.{Rests, token_of};

    ghost view = { λ p. token_of p.seat };

    ghost invariant = { λ p. Rests p.seat × (length p.seat.seen ≡ p.seen) };
}

impl Pass {
    /// The robot.
    pub fn robot(&self) -> RobotNo
        ensures { result.0 ≡ self.now.robot }
    {
        RobotNo(self.seat.number())
    }

    /// How many entries of the journal the pass has seen.
    pub fn seen(&self) -> u64
        ensures { result ≡ length self.now.seen }
    {
        self.seen
    }
}
