// Reading scripts.
ghost use Rattle.std.specs.Prelude.{◌^◌, ◌-◌, ◌<◌, length, All, IfOk};
ghost use Rattle.fleet_commands.specs.Commands.{IsDeclared};
ghost use Rattle.fleet_script.specs.Script.{script_of};
ghost use Rattle.fleet_script.specs.Stops.{Gives, script_value};

use crate::refused::ScriptRefused;
use fleet_commands::command::Command;
use fleet_commands::read::read_commands;
use scenario::scenario::Scenario;
use scenario_reader::read::read_front;
use std::alloc::Global;

// A scenario, and the commands behind it.
#[derive(Drop)]
pub(crate) struct Script {
    pub(crate) scenario: Scenario,
    pub(crate) commands: Vec<Command>,
}

// The script that a text is.
pub(crate) fn read_script(alloc: Global, input: &[u8]) -> Result<Script, ScriptRefused>
    requires { length input.now < 2 ^ 32 - 1 }
    ensures is { Gives script_value result (script_of input.now) }
    ensures declared { IfOk result (λ script. All (IsDeclared script.scenario.names) script.commands.items) }
{
    let front = read_front(alloc, input)?;
    let names = front.scenario.names();
    let commands = read_commands(alloc, input, front.used, front.lines + 1, names)?;
    Ok(Script {
        scenario: front.scenario,
        commands,
    })
}
