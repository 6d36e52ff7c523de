// What the words name.
ghost use Rattle.std.specs.Prelude.{◌≡◌, ◌<◌, IfSome};
ghost use Rattle.fleet_names.specs.Names.{count_of};
ghost use Rattle.fleet_names.specs.Things.{is_cell};
ghost use Rattle.site_map.specs.Goals.{IsGoal};
ghost use Rattle.scenario_reader.specs.MissionLines.{goal_named};
ghost use Rattle.scenario_reader.specs.SiteLines.{cell_named};

use fleet_base::numbers::CellNo;
use fleet_names::thing::Thing;
use scenario::scenario::Scenario;
use site_map::goal::Goal;

// The cell that a word names.
pub(crate) fn cell_named(scenario: &Scenario, word: &[u8]) -> Option<CellNo>
    ensures is { result ≡ cell_named scenario.now.names word.now }
    ensures known { IfSome result (λ cell. cell.0 < scenario.now.site.cells) }
{
    match scenario.names().find(word) {
        Some(Thing::Cell(number)) => Some(CellNo(number)),
        _ => None,
    }
}

// The goal that a word names: a cell or an area.
pub(crate) fn goal_named(scenario: &Scenario, word: &[u8]) -> Option<Goal>
    ensures is { result ≡ goal_named scenario.now.names word.now }
    ensures known { IfSome result (IsGoal scenario.now.site) }
{
    match scenario.names().find(word) {
        Some(Thing::Cell(number)) => Some(Goal::Cell(CellNo(number))),
        Some(Thing::Area(number)) => Some(Goal::Area(number)),
        _ => None,
    }
}
