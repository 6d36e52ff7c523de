//! The commands behind a scenario.

ghost use Rattle.std.specs.Prelude.{◌≡◌, ◌+◌, ◌-◌, ◌^◌, ◌<◌, ◌≤◌, ◌++◌, length, drop, All, IfOk, OnOk, OnErr};
ghost use Rattle.std.specs.Option.{option_to_list};
ghost use Rattle.fleet_commands.specs.Commands.{IsDeclared};
ghost use Rattle.fleet_commands.specs.Gives.{Gives};
ghost use Rattle.fleet_commands.specs.Reading.{commands_of};
ghost use Rattle.fleet_commands.specs.Texts.{AreSaid, IsFirstBad};
ghost use Rattle.site_lines.specs.declared.fault.At.{At};

use crate::command::Command;
use crate::line::command_in;
use crate::refused::ReadRefused;
use fleet_names::names::Names;
use site_lines::line::{line_at, without_return};
use std::alloc::Global;

/// The commands of the lines from a place of a text on, in order. The first of these lines has the
/// number `first_line`.
///
/// A bad line is refused exactly where one is there, as `Bad` with the number of the first one and
/// its least code; `NoMemory` is want of memory alone. Every robot, cell and goal of the commands
/// has a name.
pub fn read_commands(
    alloc: Global,
    bytes: &[u8],
    from: usize,
    first_line: u32,
    names: &Names,
) -> Result<Vec<Command>, ReadRefused>
    requires within { from ≤ length bytes.now }
    // A line takes a byte at least, so line numbers fit.
    requires numbered { first_line + (length bytes.now - from) < 2 ^ 32 }
    ensures is { Gives result (commands_of names.now first_line (drop from bytes.now)) }

    // Each line is good, and the commands are those that the lines say, in order.
    ensures said { IfOk result (λ commands. AreSaid names.now (drop from bytes.now) commands.items) }

    // The first line that isn't good, with the least of its codes.
    ensures bad { (at : At) → result ≡ Err (ReadRefused.Bad at) → IsFirstBad names.now first_line (drop from bytes.now) at }

    // The robots, cells and goals of the commands have names.
    ensures declared { IfOk result (λ commands. All (IsDeclared names.now) commands.items) }
{
    let mut commands = Vec::new(alloc);
    let mut number = first_line;
    let mut place = from;
    while let Some(line) = line_at(bytes, place) {
        let text = without_return(&bytes[line.start..line.stop]);
        let said = command_in(alloc, text, names).map_err(|refused| refused.at(number))?;
        push_said(&mut commands, said)?;
        number += 1;
        place = line.next;
    }
    Ok(commands)
}

// Appends the command of a line; a blank line has none.
fn push_said(commands: &mut Vec<Command>, said: Option<Command>) -> Result<(), ReadRefused>
    ensures ok { OnOk result (commands.new.items ≡ commands.old.items ++ option_to_list said) }
    ensures err { OnErr result (result ≡ Err ReadRefused.NoMemory) }
{
    if let Some(command) = said {
        commands.push(command).map_err(|_| ReadRefused::NoMemory)?;
    }
    Ok(())
}
