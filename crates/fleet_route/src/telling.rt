// The text of a least route.
ghost use Rattle.std.specs.Prelude.{◌≡◌, ◌<◌, ◌++◌, [], IfOk, OnErr, OnOk};
ghost use Rattle.fleet_model.specs.Lists.{has_cell};
ghost use Rattle.fleet_base.specs.declared.numbers.CellNo.{CellNo};
ghost use Rattle.route_plan.specs.Labels.{label_at};
ghost use Rattle.site_map.specs.Goals.{IsGoal, goal_cells};
ghost use Rattle.fleet_route.specs.Texts.{label_line, label_lines, route_line, route_text};

use fleet_base::numbers::CellNo;
use fleet_base::path::NoMemory;
use fleet_names::names::Names;
use fleet_texts::pushing::{push_number_word, push_text};
use fleet_texts::words::{push_cell, push_cells};
use route_plan::cell_set::CellSet;
use route_plan::finder::least_route;
use route_plan::goals::goal_set;
use route_plan::refused::RouteRefused;
use route_plan::route::Route;
use scenario::scenario::Scenario;
use site_map::goal::Goal;
use std::alloc::Global;

// The text of the least route from a cell to a goal, past no cell.
pub(crate) fn route_text(
    alloc: Global,
    scenario: &Scenario,
    from: CellNo,
    goal: Goal,
) -> Result<Vec<u8>, NoMemory>
    requires from { from.0 < scenario.now.site.cells }
    requires goal { IsGoal scenario.now.site goal }
    ensures { IfOk result (λ text. text.items ≡ route_text scenario.now.names scenario.now.site (has_cell (goal_cells scenario.now.site goal)) from) }
{
    let site = scenario.site();
    let mut text = Vec::new(alloc);
    match least_route(site, from, &goal_set(site, goal), &CellSet::new(), alloc) {
        Ok(route) => push_route(&mut text, scenario.names(), site.cell_count(), &route)?,
        Err(RouteRefused::Unreachable) => push_text(&mut text, b"unreachable\n")?,
        Err(RouteRefused::NoMemory) => return Err(NoMemory),
    }
    Ok(text)
}

// Appends the line of a route, and the lines of the labels of so many cells.
fn push_route(text: &mut Vec<u8>, names: &Names, count: u32, route: &Route) -> Result<(), NoMemory>
    ensures ok { OnOk result (text.new.items ≡ text.old.items
        ++ (route_line names.now route.now.cost route.now.path ++ label_lines names.now count (label_at route.now.labels))) }
    ensures err { OnErr result (text.new.items ≡ []) }
{
    push_route_line(text, names, route)?;
    for number in 0..count {
        let cell = CellNo(number);
        push_label_line(text, names, cell, route.label(cell))?;
    }
    Ok(())
}

// Appends the line of a route: its cost and its cells.
fn push_route_line(text: &mut Vec<u8>, names: &Names, route: &Route) -> Result<(), NoMemory>
    ensures ok { OnOk result (text.new.items ≡ text.old.items ++ route_line names.now route.now.cost route.now.path) }
    ensures err { OnErr result (text.new.items ≡ []) }
{
    push_text(text, b"route")?;
    push_number_word(text, route.cost())?;
    push_cells(text, names, route.cells())?;
    push_text(text, b"\n")
}

// Appends the line of a cell's label, and nothing where it has none.
fn push_label_line(
    text: &mut Vec<u8>,
    names: &Names,
    cell: CellNo,
    label: Option<u64>,
) -> Result<(), NoMemory>
    ensures ok { OnOk result (text.new.items ≡ text.old.items ++ label_line names.now cell label) }
    ensures err { OnErr result (text.new.items ≡ []) }
{
    let Some(cost) = label else {
        return Ok(());
    };
    push_text(text, b"label")?;
    push_cell(text, names, cell)?;
    push_number_word(text, cost)?;
    push_text(text, b"\n")
}
