//! Why a call of the builder is refused.

use fleet_base::path::NoMemory;
use std::alloc::{AllocError, AllocFailed};

/// Claims of a site's crossings.
pub const MAX_CROSSING_CLAIMS: u32 = 256;

/// Why a call of the builder is refused; the first cause in the call's order. The builder is then
/// as before.
#[derive(Clone, Copy, Debug, PartialEq, Eq)]
pub enum BuildRefused {
    /// A cell isn't one of the site's.
    UnknownCell,
    /// The crossing isn't one of the site's.
    UnknownCrossing,
    /// A cell stands twice.
    Repeated,
    /// The site has as many as it may have.
    Full,
    /// A cell would be in a third crossing.
    TooManyCrossings,
    /// A cell of the flow isn't in the crossing, or is in an earlier flow of it.
    Foreign,
    /// The link leads from a cell to itself.
    SelfLink,
    /// The link is there.
    Linked,
    /// No memory was left.
    NoMemory,
}

impl From<AllocError> for BuildRefused {
    ghost use Rattle.std.specs.Prelude.{◌≡◌};
    ghost use Rattle.site_map.specs.declared.refused.BuildRefused.TheVariants as refused;

    ghost from_gives = { λ _ e. e ≡ refused.NoMemory };

    fn from(_error: AllocError) -> Self {
        BuildRefused::NoMemory
    }
}

impl<T: Drop> From<AllocFailed<T>> for BuildRefused {
    ghost use Rattle.std.specs.Prelude.{◌≡◌};
    ghost use Rattle.site_map.specs.declared.refused.BuildRefused.TheVariants as refused;

    ghost from_gives = { λ _ e. e ≡ refused.NoMemory };

    fn from(_error: AllocFailed<T>) -> Self {
        BuildRefused::NoMemory
    }
}

impl From<NoMemory> for BuildRefused {
    ghost use Rattle.std.specs.Prelude.{◌≡◌};
    ghost use Rattle.site_map.specs.declared.refused.BuildRefused.TheVariants as refused;

    ghost from_gives = { λ _ e. e ≡ refused.NoMemory };

    fn from(_error: NoMemory) -> Self {
        BuildRefused::NoMemory
    }
}
