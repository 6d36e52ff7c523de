//! A script: read, carried out and printed.

ghost use Rattle.std.specs.Prelude.{◌≡◌, ◌^◌, ◌-◌, ◌<◌, All, Err, IfOk, OnOk, Ok, length};
ghost use Rattle.fleet_commands.specs.Commands.{IsDeclared};
ghost use Rattle.fleet_script.specs.Form.{IsBadScript};
ghost use Rattle.fleet_script.specs.declared.refused.ScriptRefused.TheVariants.{Bad};
ghost use Rattle.site_lines.specs.declared.fault.At.{At};
ghost use Rattle.fleet_script.specs.Script.{ScriptValue, printed, script_of, script_text};
ghost use Rattle.fleet_script.specs.Sound.{PrintsSoundly};
ghost use Rattle.fleet_script.specs.Stops.{Gives, script_value};

use crate::carrying::carry_out;
use crate::reading::{Script, read_script};
use crate::refused::ScriptRefused;
use fleet_base::path::NoMemory;
use fleet_report::state::push_state;
use fleet_texts::journal::push_journal;
use run_base::open::{Opened, open};
use std::alloc::Global;

/// What the script prints that a text is: a line for each answer, the journal of the accepted
/// commands and the state that it reaches. All lines are read before the first command is carried
/// out: a text with a bad line is refused with the first one and its least code.
///
/// The text has fewer than 4,294,967,295 bytes.
pub fn script(alloc: Global, input: &[u8]) -> Result<Vec<u8>, ScriptRefused>
    requires { length input.now < 2 ^ 32 - 1 }
    // The text is the one that the script prints, or the refusal names its first bad line; or
    // memory ran out.
    ensures is { Gives (λ text. text.items) result (script_text input.now) }
    // A bad line that is named is the first one of the scenario, or else of the commands behind it.
    ensures causes { (at : At) → result ≡ Err (Bad at) → IsBadScript input.now at }
    // The journal that is printed is legal and sound, and its state is the one that is printed.
    ensures sound { IfOk result (λ text. (script : ScriptValue) → script_of input.now ≡ Ok script → PrintsSoundly script text.items) }
{
    carried_out(alloc, input)
}

// The same, by the clauses of which `causes` is a consequence.
fn carried_out(alloc: Global, input: &[u8]) -> Result<Vec<u8>, ScriptRefused>
    requires { length input.now < 2 ^ 32 - 1 }
    ensures is { Gives (λ text. text.items) result (script_text input.now) }
    ensures sound { IfOk result (λ text. (script : ScriptValue) → script_of input.now ≡ Ok script → PrintsSoundly script text.items) }
{
    let script = read_script(alloc, input)?;
    Ok(run(alloc, script)?)
}

// What a script prints.
fn run(alloc: Global, script: Script) -> Result<Vec<u8>, NoMemory>
    requires { All (IsDeclared script.scenario.names) script.commands.items }
    ensures is { IfOk result (λ text. text.items ≡ printed (script_value script)) }
    ensures sound { OnOk result (PrintsSoundly (script_value script) (printed (script_value script))) }
{
    let Script { scenario, commands } = script;
    let Opened { names, mut fleet } = open(alloc, scenario)?;
    let mut text = Vec::new(alloc);
    carry_out(&mut text, &names, &mut fleet, &commands)?;
    push_journal(&mut text, &names, fleet.journal())?;
    push_state(&mut text, &names, &fleet)?;
    Ok(text)
}
