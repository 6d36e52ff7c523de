// What words name in a command.
ghost use Rattle.std.specs.Prelude.{◌≡◌, ◌<◌, IfSome};
ghost use Rattle.fleet_names.specs.Names.{count_of};
ghost use Rattle.fleet_names.specs.Things.{is_robot, is_cell};
ghost use Rattle.fleet_commands.specs.Commands.{IsDeclaredGoal};
ghost use Rattle.fleet_commands.specs.UsedNames.{robot_named, cell_named, goal_named};

use fleet_base::numbers::{CellNo, RobotNo};
use fleet_names::names::Names;
use fleet_names::thing::Thing;
use site_map::goal::Goal;

// The robot that a word names.
pub(crate) fn robot_named(names: &Names, word: &[u8]) -> Option<RobotNo>
    ensures is { result ≡ robot_named names.now word.now }
    ensures known { IfSome result (λ r. r.0 < count_of is_robot names.now) }
{
    match names.find(word) {
        Some(Thing::Robot(number)) => Some(RobotNo(number)),
        _ => None,
    }
}

// The cell that a word names.
pub(crate) fn cell_named(names: &Names, word: &[u8]) -> Option<CellNo>
    ensures is { result ≡ cell_named names.now word.now }
    ensures known { IfSome result (λ c. c.0 < count_of is_cell names.now) }
{
    match names.find(word) {
        Some(Thing::Cell(number)) => Some(CellNo(number)),
        _ => None,
    }
}

// The cell or the area that a word names.
pub(crate) fn goal_named(names: &Names, word: &[u8]) -> Option<Goal>
    ensures is { result ≡ goal_named names.now word.now }
    ensures known { IfSome result (IsDeclaredGoal names.now) }
{
    match names.find(word) {
        Some(Thing::Cell(number)) => Some(Goal::Cell(CellNo(number))),
        Some(Thing::Area(number)) => Some(Goal::Area(number)),
        _ => None,
    }
}
