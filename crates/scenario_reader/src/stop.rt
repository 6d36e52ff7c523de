//! Why a text isn't read.

ghost use Rattle.std.specs.Prelude.{◌≡◌};
ghost use Rattle.scenario_reader.specs.Tables.{refused_at};
ghost use Rattle.scenario_reader.specs.declared.stop.Stop.TheVariants as stops;

use fleet_base::path::NoMemory;
use site_lines::fault::{At, Code};
use site_map::refused::BuildRefused;
use std::alloc::{AllocError, AllocFailed};

/// Why a text isn't read as a scenario.
#[derive(Clone, Copy, Debug, PartialEq, Eq)]
pub enum ReadRefused {
    /// Its first bad line, with the line's least code.
    Bad(At),
    /// No memory was left.
    NoMemory,
}

// Why a line isn't taken.
#[derive(Clone, Copy, Debug, PartialEq, Eq)]
pub(crate) enum Stop {
    // It is bad, and this is its least code.
    Bad(Code),
    // No memory was left.
    NoMemory,
}

impl Stop {
    // Why the text isn't read of which the line with this number is stopped.
    pub(crate) fn at(self, line: u32) -> ReadRefused
        ensures { result ≡ refused_at self line }
    {
        match self {
            Stop::Bad(code) => ReadRefused::Bad(At { line, code }),
            Stop::NoMemory => ReadRefused::NoMemory,
        }
    }
}

impl From<Code> for Stop {
    ghost from_gives = { λ code stop. stop ≡ stops.Bad code };

    fn from(code: Code) -> Self {
        Stop::Bad(code)
    }
}

impl From<BuildRefused> for Stop {
    ghost use Rattle.std.specs.Prelude.{◌≡◌};
    ghost use Rattle.scenario_reader.specs.Kept.{stop_of};

    ghost from_gives = { λ refused stop. stop ≡ stop_of refused };

    fn from(refused: BuildRefused) -> Self {
        match refused {
            BuildRefused::UnknownCell | BuildRefused::UnknownCrossing => Stop::Bad(Code::S11),
            BuildRefused::Repeated => Stop::Bad(Code::S12),
            BuildRefused::Full => Stop::Bad(Code::S13),
            BuildRefused::TooManyCrossings => Stop::Bad(Code::S14),
            BuildRefused::Foreign => Stop::Bad(Code::S23),
            BuildRefused::SelfLink | BuildRefused::Linked => Stop::Bad(Code::S15),
            BuildRefused::NoMemory => Stop::NoMemory,
        }
    }
}

impl From<AllocError> for Stop {
    ghost from_gives = { λ _ stop. stop ≡ stops.NoMemory };

    fn from(_error: AllocError) -> Self {
        Stop::NoMemory
    }
}

impl<T: Drop> From<AllocFailed<T>> for Stop {
    ghost from_gives = { λ _ stop. stop ≡ stops.NoMemory };

    fn from(_error: AllocFailed<T>) -> Self {
        Stop::NoMemory
    }
}

impl From<NoMemory> for Stop {
    ghost from_gives = { λ _ stop. stop ≡ stops.NoMemory };

    fn from(_error: NoMemory) -> Self {
        Stop::NoMemory
    }
}
