//! Printing scenarios.

ghost use Rattle.std.specs.Prelude.{◌≡◌, ◌<◌, ◌≤◌, ◌+◌, ◌++◌, length, take, All, IfOk, OnOk};
ghost use Rattle.fleet_base.specs.declared.limits.TheConstants.{MAX_ROBOTS};
ghost use Rattle.fleet_names.specs.Names.{count_of};
ghost use Rattle.fleet_names.specs.Things.{is_area, is_cell, is_crossing, is_robot};
ghost use Rattle.site_map.specs.Crossings.{crossing_claims};
ghost use Rattle.site_map.specs.Goals.{IsGoal};
ghost use Rattle.scenario.specs.Canonical.{area_text, canonical_text, cell_text, crossing_text, each, header_text, leg_text, legs_text, links_text, mission_text, robot_text};
ghost use Rattle.scenario.specs.Scenarios.{IsMission};

use crate::flows::{cells_of_flow, claims_behind};
use crate::lines::{push_bare, push_link, push_one, push_set, push_two};
use crate::missions::Missions;
use crate::scenario::{Goal, Scenario};
use fleet_base::numbers::{CellNo, RobotNo};
use fleet_base::path::NoMemory;
use fleet_names::names::Names;
use fleet_names::thing::Thing;
use site_lines::number::push_bytes;
use site_map::site::Site;
use std::alloc::Global;

/// The canonical text of a scenario.
pub fn print_scenario(alloc: Global, scenario: &Scenario) -> Result<Vec<u8>, NoMemory>
    ensures { IfOk result (λ text. text.items ≡ canonical_text scenario.now) }
{
    let names = scenario.names();
    let site = scenario.site();
    let mut text = Vec::new(alloc);
    push_header(&mut text, site)?;
    push_cells(&mut text, names, site)?;
    push_crossings(alloc, &mut text, names, site)?;
    push_areas(&mut text, names, site)?;
    push_links(&mut text, names, site)?;
    push_robots(&mut text, names, scenario.starts())?;
    push_missions(&mut text, names, site, scenario.missions())?;
    push_bare(&mut text, b"end")?;
    Ok(text)
}

// The header: version 2 where a crossing has flows.
fn push_header(text: &mut Vec<u8>, site: &Site) -> Result<(), NoMemory>
    ensures { OnOk result (text.new.items ≡ text.old.items ++ header_text site.now) }
{
    for crossing in 0..site.crossing_count() {
        if site.crossing_flows(crossing) > 0 {
            return push_bytes(text, b"fleet 2\n");
        }
    }
    push_bytes(text, b"fleet 1\n")
}

// A line for each cell.
fn push_cells(text: &mut Vec<u8>, names: &Names, site: &Site) -> Result<(), NoMemory>
    requires { site.now.cells ≤ count_of is_cell names.now }
    ensures { OnOk result (text.new.items ≡ text.old.items ++ each (cell_text names.now) site.now.cells) }
{
    for cell in 0..site.cell_count() {
        push_one(text, b"cell", names, Thing::Cell(cell))?;
    }
    Ok(())
}

// The lines of each crossing.
fn push_crossings(
    alloc: Global,
    text: &mut Vec<u8>,
    names: &Names,
    site: &Site,
) -> Result<(), NoMemory>
    requires cells { site.now.cells ≤ count_of is_cell names.now }
    requires crossings { length site.now.crossings ≤ count_of is_crossing names.now }
    ensures { OnOk result (text.new.items ≡ text.old.items ++ each (crossing_text names.now site.now) (length site.now.crossings)) }
{
    let mut first = site.cell_count();
    for crossing in 0..site.crossing_count() {
        push_crossing(alloc, text, names, site, crossing, first)?;
        first = claims_behind(site, crossing, first);
    }
    Ok(())
}

// The lines of a crossing, whose first claim is handed in.
fn push_crossing(
    alloc: Global,
    text: &mut Vec<u8>,
    names: &Names,
    site: &Site,
    crossing: u32,
    first: u32,
) -> Result<(), NoMemory>
    requires cells { site.now.cells ≤ count_of is_cell names.now }
    requires known { crossing < length site.now.crossings }
    requires named { crossing < count_of is_crossing names.now }
    requires first { first ≡ site.now.cells + crossing_claims (take crossing site.now.crossings) }
    ensures { OnOk result (text.new.items ≡ text.old.items ++ crossing_text names.now site.now crossing) }
{
    let thing = Thing::Crossing(crossing);
    push_set(
        text,
        b"crossing",
        names,
        thing,
        site.crossing_cells(crossing),
    )?;
    for flow in 0..site.crossing_flows(crossing) {
        let cells = cells_of_flow(alloc, site, crossing, first, flow)?;
        push_set(text, b"flow", names, thing, &cells)?;
    }
    Ok(())
}

// A line for each area.
fn push_areas(text: &mut Vec<u8>, names: &Names, site: &Site) -> Result<(), NoMemory>
    requires cells { site.now.cells ≤ count_of is_cell names.now }
    requires areas { length site.now.areas ≤ count_of is_area names.now }
    ensures { OnOk result (text.new.items ≡ text.old.items ++ each (area_text names.now site.now) (length site.now.areas)) }
{
    for area in 0..site.area_count() {
        push_set(
            text,
            b"area",
            names,
            Thing::Area(area),
            site.area_cells(area),
        )?;
    }
    Ok(())
}

// A line for each link.
fn push_links(text: &mut Vec<u8>, names: &Names, site: &Site) -> Result<(), NoMemory>
    requires { site.now.cells ≤ count_of is_cell names.now }
    ensures { OnOk result (text.new.items ≡ text.old.items ++ each (links_text names.now site.now) site.now.cells) }
{
    for cell in 0..site.cell_count() {
        push_links_from(text, names, site, CellNo(cell))?;
    }
    Ok(())
}

// A line for each link from a cell.
fn push_links_from(
    text: &mut Vec<u8>,
    names: &Names,
    site: &Site,
    from: CellNo,
) -> Result<(), NoMemory>
    requires cells { site.now.cells ≤ count_of is_cell names.now }
    requires from { from.0 < site.now.cells }
    ensures { OnOk result (text.new.items ≡ text.old.items ++ links_text names.now site.now from.0) }
{
    for link in site.links(from) {
        push_link(text, names, from, link.to, link.cost)?;
    }
    Ok(())
}

// A line for each robot.
fn push_robots(text: &mut Vec<u8>, names: &Names, starts: &[CellNo]) -> Result<(), NoMemory>
    requires cells { All (λ c. c.0 < count_of is_cell names.now) starts.now }
    requires robots { length starts.now ≤ count_of is_robot names.now }
    requires few { length starts.now ≤ MAX_ROBOTS }
    ensures { OnOk result (text.new.items ≡ text.old.items ++ each (robot_text names.now starts.now) (length starts.now)) }
{
    for robot in 0..starts.len() as u32 {
        let thing = Thing::Robot(robot);
        push_two(text, b"robot", names, thing, starts[robot as usize])?;
    }
    Ok(())
}

// The mission of each robot that has a leg.
fn push_missions(
    text: &mut Vec<u8>,
    names: &Names,
    site: &Site,
    missions: &Missions,
) -> Result<(), NoMemory>
    requires cells { site.now.cells ≤ count_of is_cell names.now }
    requires areas { length site.now.areas ≤ count_of is_area names.now }
    requires robots { length missions.now ≤ count_of is_robot names.now }
    requires few { length missions.now ≤ MAX_ROBOTS }
    requires legs { All (IsMission site.now) missions.now }
    ensures { OnOk result (text.new.items ≡ text.old.items ++ each (mission_text names.now missions.now) (length missions.now)) }
{
    for robot in 0..missions.robot_count() as u32 {
        push_mission(text, names, site, robot, missions.legs(RobotNo(robot)))?;
    }
    Ok(())
}

// The mission of a robot with these legs; nothing where there is none.
fn push_mission(
    text: &mut Vec<u8>,
    names: &Names,
    site: &Site,
    robot: u32,
    legs: &[Goal],
) -> Result<(), NoMemory>
    requires cells { site.now.cells ≤ count_of is_cell names.now }
    requires areas { length site.now.areas ≤ count_of is_area names.now }
    requires robot { robot < count_of is_robot names.now }
    requires legs { All (IsGoal site.now) legs.now }
    ensures { OnOk result (text.new.items ≡ text.old.items ++ legs_text names.now robot legs.now) }
{
    if legs.is_empty() {
        return Ok(());
    }
    push_one(text, b"mission", names, Thing::Robot(robot))?;
    for leg in legs {
        push_leg(text, names, site, *leg)?;
    }
    push_bare(text, b"done")
}

// The line of a leg.
fn push_leg(text: &mut Vec<u8>, names: &Names, site: &Site, goal: Goal) -> Result<(), NoMemory>
    requires cells { site.now.cells ≤ count_of is_cell names.now }
    requires areas { length site.now.areas ≤ count_of is_area names.now }
    requires goal { IsGoal site.now goal }
    ensures { OnOk result (text.new.items ≡ text.old.items ++ leg_text names.now goal) }
{
    let thing = match goal {
        Goal::Cell(cell) => Thing::Cell(cell.0),
        Goal::Area(area) => Thing::Area(area),
    };
    push_one(text, b"visit", names, thing)
}
