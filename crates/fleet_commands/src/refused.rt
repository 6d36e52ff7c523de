//! Why commands aren't read.

use site_lines::fault::{At, Code};
use std::alloc::AllocFailed;

/// Why a text isn't read.
#[derive(Clone, Copy, Debug, PartialEq, Eq)]
pub enum ReadRefused {
    /// This is its first bad line.
    Bad(At),
    /// No memory was left.
    NoMemory,
}

// Why a line isn't read.
#[derive(Clone, Copy, Debug, PartialEq, Eq)]
pub(crate) enum LineRefused {
    // It is bad, and this is its least code.
    Bad(Code),
    // No memory was left.
    NoMemory,
}

impl LineRefused {
    ghost use Rattle.std.specs.Prelude.{◌≡◌};
    ghost use Rattle.fleet_commands.specs.Gives.{refused_at};

    // The same for a text whose line has this number.
    pub(crate) fn at(self, line: u32) -> ReadRefused
        ensures { result ≡ refused_at line self }
    {
        match self {
            LineRefused::Bad(code) => ReadRefused::Bad(At { line, code }),
            LineRefused::NoMemory => ReadRefused::NoMemory,
        }
    }
}

impl From<Code> for LineRefused {
    ghost use Rattle.std.specs.Prelude.{◌≡◌};
    ghost use Rattle.fleet_commands.specs.declared.refused.LineRefused.TheVariants as line;

    ghost from_gives = { λ code refused. refused ≡ line.Bad code };

    fn from(code: Code) -> Self {
        LineRefused::Bad(code)
    }
}

impl<T: Drop> From<AllocFailed<T>> for LineRefused {
    ghost use Rattle.std.specs.Prelude.{◌≡◌};
    ghost use Rattle.fleet_commands.specs.declared.refused.LineRefused.TheVariants as line;

    ghost from_gives = { λ _ refused. refused ≡ line.NoMemory };

    fn from(_error: AllocFailed<T>) -> Self {
        LineRefused::NoMemory
    }
}
