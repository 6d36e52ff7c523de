//! The text of a fleet's state.

ghost use Rattle.std.specs.Prelude.{◌≡◌, ◌<◌, ◌≤◌, ◌++◌, [], length, map, IfOk, OnOk, OnErr};
ghost use Rattle.std.specs.List.{flat_map};
ghost use Rattle.fleet_model.specs.Lists.{numbers_below};
ghost use Rattle.fleet_model.specs.Plans.{own, unfinished};
ghost use Rattle.fleet_texts.specs.StateTexts.{event_line, robot_lines, state_text};
ghost use Rattle.fleet_texts.specs.Words.{lines_text};
ghost use Rattle.coordinator.specs.Books.{state_of};

use coordinator::coordinator::Coordinator;
use fleet_base::numbers::RobotNo;
use fleet_base::path::NoMemory;
use fleet_names::names::Names;
use fleet_texts::state::{
    push_end, push_event_line, push_header, push_holds_line, push_pending_line, push_robot_line,
};
use std::alloc::Global;

/// The text of the fleet's state: the number of its journal's entries, the next event number, and
/// of each robot where it is, its end, what it holds, its pending route and its unfinished events.
/// A thing without a name is written as no bytes.
pub fn state_text(alloc: Global, names: &Names, fleet: &Coordinator) -> Result<Vec<u8>, NoMemory>
    ensures { IfOk result (λ text. text.items ≡ state_text names.now fleet.now.site (state_of fleet.now)) }
{
    let mut text = Vec::new(alloc);
    push_state(&mut text, names, fleet)?;
    Ok(text)
}

/// Appends the text of the fleet's state. Where no memory is left, the text is given up: it is then
/// empty.
#[tactic(auto, unfolding(fleet_texts::specs::StateTexts::state_text))]
pub fn push_state(text: &mut Vec<u8>, names: &Names, fleet: &Coordinator) -> Result<(), NoMemory>
    ensures ok { OnOk result (text.new.items ≡ text.old.items ++ state_text names.now fleet.now.site (state_of fleet.now)) }
    ensures err { OnErr result (text.new.items ≡ []) }
{
    push_header(text, fleet.journal().len() as u64, fleet.next_number())?;
    push_robots(text, names, fleet)?;
    push_end(text)
}

// Appends the lines of each robot.
fn push_robots(text: &mut Vec<u8>, names: &Names, fleet: &Coordinator) -> Result<(), NoMemory>
    requires few { length (unfinished (state_of fleet.now).fleet) ≤ fleet.now.cap }
    ensures ok { OnOk result (text.new.items ≡ text.old.items
        ++ lines_text (flat_map (robot_lines names.now fleet.now.site (state_of fleet.now)) (numbers_below (length (state_of fleet.now).fleet.starts)))) }
    ensures err { OnErr result (text.new.items ≡ []) }
{
    for number in 0..fleet.robots() {
        push_robot_lines(text, names, fleet, RobotNo(number))?;
    }
    Ok(())
}

// Appends the lines of a robot.
fn push_robot_lines(
    text: &mut Vec<u8>,
    names: &Names,
    fleet: &Coordinator,
    robot: RobotNo,
) -> Result<(), NoMemory>
    requires known { robot.0 < length fleet.now.starts }
    requires few { length (unfinished (state_of fleet.now).fleet) ≤ fleet.now.cap }
    ensures ok { OnOk result (text.new.items ≡ text.old.items
        ++ lines_text (robot_lines names.now fleet.now.site (state_of fleet.now) robot.0)) }
    ensures err { OnErr result (text.new.items ≡ []) }
{
    push_robot_line(text, names, robot, fleet.at(robot), fleet.end(robot))?;
    push_holds_line(text, names, fleet.site(), fleet.holds(robot).list())?;
    push_pending_line(text, names, fleet.pending(robot))?;
    push_events(text, names, fleet, robot)
}

// Appends a line for each unfinished event of a robot.
fn push_events(
    text: &mut Vec<u8>,
    names: &Names,
    fleet: &Coordinator,
    robot: RobotNo,
) -> Result<(), NoMemory>
    requires known { robot.0 < length fleet.now.starts }
    requires few { length (unfinished (state_of fleet.now).fleet) ≤ fleet.now.cap }
    ensures ok { OnOk result (text.new.items ≡ text.old.items
        ++ lines_text (map (event_line names.now fleet.now.site) (own robot.0 (unfinished (state_of fleet.now).fleet)))) }
    ensures err { OnErr result (text.new.items ≡ []) }
{
    for place in 0..fleet.cap() {
        let Some(event) = fleet.unfinished(robot, place) else {
            return Ok(());
        };
        push_event_line(text, names, fleet.site(), &event)?;
    }
    Ok(())
}
