//! Why a text isn't carried out as a script.

ghost use Rattle.std.specs.Prelude.{◌≡◌};
ghost use Rattle.fleet_script.specs.Stops.{of_commands, of_scenario};
ghost use Rattle.fleet_script.specs.declared.refused.ScriptRefused.TheVariants.{NoMemory as OutOfMemory};

use fleet_base::path::NoMemory;
use fleet_commands::refused::ReadRefused as CommandsRefused;
use scenario_reader::stop::ReadRefused;
use site_lines::fault::At;

/// Why a text isn't carried out as a script.
#[derive(Clone, Copy, Debug, PartialEq, Eq)]
pub enum ScriptRefused {
    /// This is its first bad line, with the line's least code. No command was carried out.
    Bad(At),
    /// No memory was left.
    NoMemory,
}

impl From<ReadRefused> for ScriptRefused {
    ghost from_gives = { λ refused stop. stop ≡ of_scenario refused };

    fn from(refused: ReadRefused) -> Self {
        match refused {
            ReadRefused::Bad(at) => ScriptRefused::Bad(at),
            ReadRefused::NoMemory => ScriptRefused::NoMemory,
        }
    }
}

impl From<CommandsRefused> for ScriptRefused {
    ghost from_gives = { λ refused stop. stop ≡ of_commands refused };

    fn from(refused: CommandsRefused) -> Self {
        match refused {
            CommandsRefused::Bad(at) => ScriptRefused::Bad(at),
            CommandsRefused::NoMemory => ScriptRefused::NoMemory,
        }
    }
}

impl From<NoMemory> for ScriptRefused {
    ghost from_gives = { λ _ stop. stop ≡ OutOfMemory };

    fn from(_error: NoMemory) -> Self {
        ScriptRefused::NoMemory
    }
}
