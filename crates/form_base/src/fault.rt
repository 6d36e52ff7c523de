// Why an input isn't accepted, and why a form gives no text.
ghost use Rattle.std.specs.Prelude.{◌≡◌};
ghost use Rattle.form_base.specs.declared.fault.Stop.TheVariants.{NoMemory as OutOfMemory};

use fleet_base::path::NoMemory;
use site_lines::fault::At;

/// Why an input isn't accepted.
#[derive(Clone, Copy, Debug, PartialEq, Eq)]
pub enum Fault {
    /// Its first bad line, with the least code of that line.
    Line(At),
    /// It has more bytes than the limit of the form.
    TooBig,
    /// `route`: the second word isn't the name of a cell.
    UnknownFrom,
    /// `route`: the third word isn't the name of a cell or an area.
    UnknownTo,
    /// The first entry, from 1, of its journal that isn't one of an accepted call with just this
    /// answer.
    Entry(u32),
}

/// Why a form gives no text.
#[derive(Clone, Copy, Debug, PartialEq, Eq)]
pub enum Stop {
    /// The input isn't accepted.
    Refused(Fault),
    /// No memory was left.
    NoMemory,
}

impl From<NoMemory> for Stop {
    ghost from_gives = { λ _ stop. stop ≡ OutOfMemory };

    fn from(_error: NoMemory) -> Self {
        Stop::NoMemory
    }
}
