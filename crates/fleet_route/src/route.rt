//! A least route, from a scenario and two words.

ghost use Rattle.std.specs.Prelude.{◌^◌, ◌-◌, ◌<◌, length};
ghost use Rattle.fleet_route.specs.Answers.{route_answer};
ghost use Rattle.fleet_route.specs.Stops.{Gives};

use crate::named::{cell_named, goal_named};
use crate::refused::{Refusal, Untold};
use crate::telling::route_text;
use scenario_reader::read::read_scenario;
use std::alloc::Global;

/// The text of the least route from a cell to a cell or an area of the scenario that the text is,
/// past no cell: its cost and its cells, and the label of each cell that has one; or the line
/// `unreachable` where there is no route. `from` and `to` are the names of the cell and of the goal.
///
/// The text of the scenario is judged first, then `from`, then `to`. It has fewer than
/// 4,294,967,295 bytes.
pub fn route(alloc: Global, input: &[u8], from: &[u8], to: &[u8]) -> Result<Vec<u8>, Untold>
    requires { length input.now < 2 ^ 32 - 1 }
    // The text is the one that is due, or the refusal is; or memory ran out.
    ensures { Gives (λ text. text.items) result (route_answer input.now from.now to.now) }
{
    let scenario = read_scenario(alloc, input)?;
    let Some(from) = cell_named(&scenario, from) else {
        return Err(Untold::Refused(Refusal::UnknownFrom));
    };
    let Some(goal) = goal_named(&scenario, to) else {
        return Err(Untold::Refused(Refusal::UnknownTo));
    };
    Ok(route_text(alloc, &scenario, from, goal)?)
}
