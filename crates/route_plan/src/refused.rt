//! Why there is no route.

use std::alloc::AllocError;
use thiserror::Error;

/// Why no route is handed out.
#[derive(Clone, Copy, Debug, PartialEq, Eq, Error)]
pub enum RouteRefused {
    /// No walk leads to the goal past the cells to avoid.
    #[error("no walk leads to the goal")]
    Unreachable,
    /// No memory was left.
    #[error("out of memory")]
    NoMemory,
}

impl From<AllocError> for RouteRefused {
    ghost use Rattle.std.specs.Prelude.{◌≡◌};
    ghost use Rattle.route_plan.specs.declared.refused.RouteRefused.TheVariants as refused;

    ghost from_gives = { λ _ e. e ≡ refused.NoMemory };

    fn from(_error: AllocError) -> Self {
        RouteRefused::NoMemory
    }
}
