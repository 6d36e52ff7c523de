//! Why a list of cells is no route, and why an order of events isn't legal.

use fleet_base::numbers::{CellNo, ClaimNo, EventNo, RobotNo};
use std::alloc::AllocError;
use thiserror::Error;

/// Why a list of cells is refused; the first cause in this order.
#[derive(Clone, Copy, Debug, PartialEq, Eq, Error)]
pub enum ShapeRefused {
    /// Fewer than 2 cells.
    #[error("a route has at least 2 cells")]
    Short,
    /// More than 1,024 cells.
    #[error("a route has at most 1,024 cells")]
    TooLong,
    /// The first place, from 0, that names no cell of the site.
    #[error("the cell at place {at} isn't one of the site")]
    UnknownCell { at: u32 },
    /// The first place whose cell isn't linked from the cell before it.
    #[error("the cell at place {at} isn't linked from the cell before it")]
    NoLink { at: u32 },
    /// No memory was left.
    #[error("out of memory")]
    NoMemory,
}

impl From<AllocError> for ShapeRefused {
    ghost use Rattle.std.specs.Prelude.{◌≡◌};
    ghost use Rattle.plan_events.specs.declared.refused.ShapeRefused.TheVariants as refused;

    ghost from_gives = { λ _ e. e ≡ refused.NoMemory };

    fn from(_error: AllocError) -> Self {
        ShapeRefused::NoMemory
    }
}

/// Why an order of events isn't legal: the first event that isn't, and its first cause in this
/// order.
#[derive(Clone, Copy, Debug, PartialEq, Eq, Error)]
pub enum ReplayClash {
    /// Another robot holds a claim that conflicts with the acquired one; the least such robot.
    #[error("robot {0} holds a claim against claim {1}", holder.0, claim.0)]
    Held {
        event: EventNo,
        claim: ClaimNo,
        holder: RobotNo,
    },
    /// The robot holds the acquired claim already.
    #[error("claim {0} is acquired twice", claim.0)]
    Twice {
        event: EventNo,
        claim: ClaimNo,
    },
    /// The robot isn't in the cell that it moves from, but in this one.
    #[error("the robot is in cell {0}", at.0)]
    NotAt {
        event: EventNo,
        at: CellNo,
    },
    /// The robot doesn't hold the released claim, or this least claim of the cells of its move.
    #[error("claim {0} isn't held", claim.0)]
    NotHeld {
        event: EventNo,
        claim: ClaimNo,
    },
    /// No memory was left.
    #[error("out of memory")]
    NoMemory,
}

impl From<AllocError> for ReplayClash {
    ghost use Rattle.std.specs.Prelude.{◌≡◌};
    ghost use Rattle.plan_events.specs.declared.refused.ReplayClash.TheVariants as clash;

    ghost from_gives = { λ _ e. e ≡ clash.NoMemory };

    fn from(_error: AllocError) -> Self {
        ReplayClash::NoMemory
    }
}
