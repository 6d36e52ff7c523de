//! Why no route is told.

ghost use Rattle.std.specs.Prelude.{◌≡◌};
ghost use Rattle.fleet_route.specs.Stops.{of_scenario};
ghost use Rattle.fleet_route.specs.declared.refused.Untold.TheVariants.{NoMemory as OutOfMemory};

use fleet_base::path::NoMemory;
use scenario_reader::stop::ReadRefused;
use site_lines::fault::At;

/// Why a route that is asked for isn't looked for; the first cause in this order.
#[derive(Clone, Copy, Debug, PartialEq, Eq)]
pub enum Refusal {
    /// The text isn't a scenario: its first bad line, with the line's least code.
    Line(At),
    /// The first word isn't the name of a cell.
    UnknownFrom,
    /// The second word isn't the name of a cell or an area.
    UnknownTo,
}

/// Why no text is given.
#[derive(Clone, Copy, Debug, PartialEq, Eq)]
pub enum Untold {
    /// The text or a word is refused.
    Refused(Refusal),
    /// No memory was left.
    NoMemory,
}

impl From<ReadRefused> for Untold {
    ghost from_gives = { λ refused untold. untold ≡ of_scenario refused };

    fn from(refused: ReadRefused) -> Self {
        match refused {
            ReadRefused::Bad(at) => Untold::Refused(Refusal::Line(at)),
            ReadRefused::NoMemory => Untold::NoMemory,
        }
    }
}

impl From<NoMemory> for Untold {
    ghost from_gives = { λ _ untold. untold ≡ OutOfMemory };

    fn from(_error: NoMemory) -> Self {
        Untold::NoMemory
    }
}
