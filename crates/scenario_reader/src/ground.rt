// What the site lines declare.
ghost use Rattle.std.specs.Prelude.{◌≡◌, ◌<◌, ◌≤◌, ◌||◌, ◌==◌, ◌+◌, true, false, not, nat_le, nat_lt, [], ◌∷◌, length, IfOk, IfErr, OnOk, OnErr};
ghost use Rattle.std.specs.List.{list_any};
ghost use Rattle.fleet_model.specs.Lists.{has_cell};
ghost use Rattle.fleet_base.specs.declared.limits.TheConstants.{MAX_AREAS, MAX_CELLS, MAX_COST, MAX_CROSSINGS, MAX_CROSSINGS_OF_CELL, MAX_LINKS};
ghost use Rattle.site_lines.specs.declared.fault.Code.TheVariants.{S12, S13, S14, S15, S23};
ghost use Rattle.site_map.specs.Built.{completed_site, crossing_at, crossings_with, link_total, with_area, with_crossing, with_flow, with_link};
ghost use Rattle.site_map.specs.Cells.{are_known, has_repeat};
ghost use Rattle.site_map.specs.Crossings.{in_flow};
ghost use Rattle.site_map.specs.Refusals.{has_too_many_claims};
ghost use Rattle.scenario.specs.Scenarios.{NamesAll};
ghost use Rattle.scenario_reader.specs.SiteLines.{area_line, area_rows, cell_line, crossing_line, crossing_rows, flow_line, flow_rows, lane_line, link_line, link_rows, linked, with_cells};
ghost use Rattle.scenario_reader.specs.States.{nothing_declared};
ghost use Rattle.scenario_reader.specs.Tables.{row, Gives, IsFine, IsStop};

use crate::named::{add_cell_names, add_name, ends, new_set, old_set};
use crate::stop::Stop;
use crate::words::{Words, check_names};
use fleet_base::limits::MAX_LINKS;
use fleet_base::numbers::CellNo;
use fleet_names::names::Names;
use fleet_names::thing::Thing;
use site_lines::fault::Code;
use site_map::builder::SiteBuilder;
use std::alloc::Global;
use std::marker::Model;

// The site and the names as far as they were read.
#[derive(Drop)]
pub(crate) struct Ground {
    pub(crate) alloc: Global,
    pub(crate) builder: SiteBuilder,
    pub(crate) names: Names,
    pub(crate) link_count: u32,
}

impl Model for Ground {
    ghost use Rattle.std.specs.Prelude.{[]};
    ghost use Rattle.scenario_reader.specs.States.{Declared};

    ghost Value = { Declared };

    ghost use Rattle.scenario_reader.specs.Kept.{AreCounted};

    ghost view = { λ g. record { site = g.builder; names = g.names; starts = []; missions = [] } };

    ghost invariant = { λ g. AreCounted g.builder g.link_count };
}

impl Ground {
    // Nothing was read yet.
    pub(crate) fn new(alloc: Global) -> Ground
        ensures { result ≡ nothing_declared }
    {
        Ground {
            alloc,
            builder: SiteBuilder::new(alloc),
            names: Names::new(alloc),
            link_count: 0,
        }
    }

    // A line `cell`.
    pub(crate) fn cell(&mut self, words: &mut Words) -> Result<(), Stop>
        ensures { Gives (λ _. self.new) result (cell_line self.old words.old) }
    {
        check_names(&mut words.again(), 1)?;
        add_cell_names(&mut self.names, &mut words.again())?;
        add_cells(&mut self.builder, words)
    }

    // A line `crossing`.
    pub(crate) fn crossing(&mut self, words: &mut Words) -> Result<(), Stop>
        requires { NamesAll self.old.names self.old.site 0 }
        ensures { Gives (λ _. self.new) result (crossing_line self.old words.old) }
    {
        let (name, cells) = new_set(self.alloc, &self.names, words)?;
        let number = add_crossing(&mut self.builder, &cells)?;
        add_name(&mut self.names, name, Thing::Crossing(number))
    }

    // A line `area`.
    pub(crate) fn area(&mut self, words: &mut Words) -> Result<(), Stop>
        requires { NamesAll self.old.names self.old.site 0 }
        ensures { Gives (λ _. self.new) result (area_line self.old words.old) }
    {
        let (name, cells) = new_set(self.alloc, &self.names, words)?;
        let number = add_area(&mut self.builder, &cells)?;
        add_name(&mut self.names, name, Thing::Area(number))
    }

    // A line `flow`.
    pub(crate) fn flow(&mut self, words: &mut Words) -> Result<(), Stop>
        requires { NamesAll self.old.names self.old.site 0 }
        ensures { Gives (λ _. self.new) result (flow_line self.old words.old) }
    {
        let (crossing, cells) = old_set(self.alloc, &self.names, words)?;
        add_flow(&mut self.builder, crossing, &cells)
    }

    // A line `link`.
    pub(crate) fn link(&mut self, words: &mut Words) -> Result<(), Stop>
        requires { NamesAll self.old.names self.old.site 0 }
        ensures { Gives (λ _. self.new) result (link_line self.old words.old) }
    {
        let (from, to, cost) = ends(&self.names, words)?;
        add_link(&mut self.builder, from, to, cost)?;
        self.link_count += 1;
        Ok(())
    }

    // A line `lane`.
    pub(crate) fn lane(&mut self, words: &mut Words) -> Result<(), Stop>
        requires { NamesAll self.old.names self.old.site 0 }
        ensures { Gives (λ _. self.new) result (lane_line self.old words.old) }
    {
        let (from, to, cost) = ends(&self.names, words)?;
        if self.link_count + 2 > MAX_LINKS {
            return Err(Stop::Bad(Code::S13));
        }
        add_link(&mut self.builder, from, to, cost)?;
        self.link_count += 1;
        add_link(&mut self.builder, to, from, cost)?;
        self.link_count += 1;
        Ok(())
    }
}

// Adds a cell for each of these words, where there is room for all; else the code.
fn add_cells(builder: &mut SiteBuilder, words: &mut Words) -> Result<(), Stop>
    requires small { builder.old.cells ≤ MAX_CELLS }
    requires rows { length builder.old.links ≡ builder.old.cells }
    ensures fine { OnOk result (IsFine (row (nat_lt MAX_CELLS (builder.old.cells + length words.old)) S13 ∷ [])) }
    ensures added { OnOk result (builder.new ≡ with_cells builder.old words.old) }
    ensures bad { IfErr result (IsStop (row (nat_lt MAX_CELLS (builder.old.cells + length words.old)) S13 ∷ [])) }
    ensures few { builder.new.cells ≤ MAX_CELLS }
    ensures each { length builder.new.links ≡ builder.new.cells }
    ensures links { link_total builder.new.links ≡ link_total builder.old.links }
{
    while words.next().is_some() {
        let _ = builder.cell()?;
    }
    Ok(())
}

// Adds a crossing of these cells; else the least code.
fn add_crossing(builder: &mut SiteBuilder, cells: &[CellNo]) -> Result<u32, Stop>
    requires some { 0 < length cells.now }
    requires known { are_known builder.old.cells cells.now ≡ true }
    ensures fine { OnOk result (IsFine (crossing_rows builder.old cells.now)) }
    ensures added { OnOk result (builder.new ≡ with_crossing builder.old cells.now) }
    ensures bad { IfErr result (IsStop (crossing_rows builder.old cells.now)) }
    ensures kept { OnErr result (builder.new ≡ builder.old) }
    ensures number { IfOk result (λ k. k ≡ length builder.old.crossings) }
{
    Ok(builder.crossing(cells)?)
}

// Adds an area of these cells; else the least code.
fn add_area(builder: &mut SiteBuilder, cells: &[CellNo]) -> Result<u32, Stop>
    requires some { 0 < length cells.now }
    requires known { are_known builder.old.cells cells.now ≡ true }
    ensures fine { OnOk result (IsFine (area_rows builder.old cells.now)) }
    ensures added { OnOk result (builder.new ≡ with_area builder.old cells.now) }
    ensures bad { IfErr result (IsStop (area_rows builder.old cells.now)) }
    ensures kept { OnErr result (builder.new ≡ builder.old) }
    ensures number { IfOk result (λ k. k ≡ length builder.old.areas) }
{
    Ok(builder.area(cells)?)
}

// Adds a flow of these cells to a crossing; else the least code.
fn add_flow(builder: &mut SiteBuilder, crossing: u32, cells: &[CellNo]) -> Result<(), Stop>
    requires some { 0 < length cells.now }
    requires known { are_known builder.old.cells cells.now ≡ true }
    requires declared { crossing < length builder.old.crossings }
    ensures fine { OnOk result (IsFine (flow_rows builder.old crossing cells.now)) }
    ensures added { OnOk result (builder.new ≡ with_flow builder.old crossing cells.now) }
    ensures bad { IfErr result (IsStop (flow_rows builder.old crossing cells.now)) }
    ensures kept { OnErr result (builder.new ≡ builder.old) }
{
    Ok(builder.flow(crossing, cells)?)
}

// Adds a link; else the least code.
fn add_link(builder: &mut SiteBuilder, from: CellNo, to: CellNo, cost: u32) -> Result<(), Stop>
    requires known { (from.0 < builder.old.cells) × (to.0 < builder.old.cells) }
    requires costs { (1 ≤ cost) × (cost ≤ MAX_COST) }
    requires rows { length builder.old.links ≡ builder.old.cells }
    ensures fine { OnOk result (IsFine (link_rows builder.old from to)) }
    ensures added { OnOk result (builder.new ≡ linked builder.old from to cost) }
    ensures one { OnOk result (link_total builder.new.links ≡ link_total builder.old.links + 1) }
    ensures bad { IfErr result (IsStop (link_rows builder.old from to)) }
    ensures kept { OnErr result (builder.new ≡ builder.old) }
{
    Ok(builder.link(from, to, cost)?)
}
