// Carrying commands out.
ghost use Rattle.std.specs.Prelude.{All, OnOk, map};
ghost use Rattle.fleet_calls.specs.Calls.{HasGoal};
ghost use Rattle.fleet_commands.specs.Commands.{call_of};
ghost use Rattle.fleet_script.specs.Carried.{AreAnswered, IsAnswered};

use coordinator::coordinator::Coordinator;
use fleet_base::path::NoMemory;
use fleet_commands::command::Command;
use fleet_names::names::Names;
use fleet_texts::answers::push_answer;
use fleet_texts::pushing::push_text;

// Carries commands out, one after the other, and appends a line for each answer.
pub(crate) fn carry_out(
    text: &mut Vec<u8>,
    names: &Names,
    fleet: &mut Coordinator,
    commands: &[Command],
) -> Result<(), NoMemory>
    requires { All (λ command. HasGoal fleet.old.site command.request) commands.now }
    ensures { OnOk result (AreAnswered names.now (map (call_of fleet.old.site) commands.now) fleet.old fleet.new text.old.items text.new.items) }
{
    for command in commands {
        // What every coordinator keeps is said by its journal.
        let _kept = fleet.journal();
        answer(text, names, fleet, command)?;
        push_text(text, b"\n")?;
    }
    Ok(())
}

// Carries a command out, and appends its answer.
fn answer(
    text: &mut Vec<u8>,
    names: &Names,
    fleet: &mut Coordinator,
    command: &Command,
) -> Result<(), NoMemory>
    requires { HasGoal fleet.old.site command.now.request }
    ensures { OnOk result (IsAnswered names.now (call_of fleet.old.site command.now).0 (call_of fleet.old.site command.now).1 fleet.old fleet.new text.old.items text.new.items) }
{
    match fleet.call(command.robot, &command.request) {
        Ok(answer) => push_answer(text, names, fleet.site(), &answer),
        Err(NoMemory) => Err(NoMemory),
    }
}
