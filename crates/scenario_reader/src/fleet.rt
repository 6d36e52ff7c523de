// What the lines of robots and missions declare.
ghost use Rattle.std.specs.Prelude.{◌≡◌, ◌<◌, ◌≤◌, true, [], length, All, IfOk, IfErr, OnOk};
ghost use Rattle.std.specs.List.{list_any};
ghost use Rattle.fleet_names.specs.Names.{is_name};
ghost use Rattle.site_map.specs.Claims.{site_of};
ghost use Rattle.scenario.specs.Scenarios.{do_conflict};
ghost use Rattle.scenario_reader.specs.FleetLines.{end_line, mission_line, robot_line, robot_rows};
ghost use Rattle.scenario_reader.specs.Kept.{IsSound};
ghost use Rattle.scenario_reader.specs.MissionLines.{done_line};
ghost use Rattle.scenario_reader.specs.Reading.{closed};
ghost use Rattle.scenario_reader.specs.SiteLines.{cell_at};
ghost use Rattle.scenario_reader.specs.States.{scenario_in};
ghost use Rattle.scenario_reader.specs.Tables.{word, Gives, IsFine, IsStop};

use crate::ground::Ground;
use crate::mission::Open;
use crate::named::{add_name, cell_named, check_free, robot_named};
use crate::stop::Stop;
use crate::words::{Words, none, one, two};
use fleet_base::limits::MAX_ROBOTS;
use fleet_base::numbers::CellNo;
use fleet_base::path::{NoMemory, Path};
use fleet_names::names::Names;
use fleet_names::thing::{Thing, is_name};
use scenario::missions::{Legs, missions_of};
use scenario::scenario::{Parts, Scenario};
use site_lines::fault::Code;
use site_map::site::Site;
use std::alloc::Global;
use std::marker::Model;

// The site, which is closed, and the robots and missions as far as they were read.
#[derive(Drop)]
pub(crate) struct Fleet {
    pub(crate) alloc: Global,
    pub(crate) site: Site,
    pub(crate) names: Names,
    pub(crate) starts: Vec<CellNo>,
    pub(crate) missions: Vec<Option<Legs>>,
}

impl Model for Fleet {
    ghost use Rattle.scenario_reader.specs.States.{Declared};

    ghost Value = { Declared };

    ghost view = { λ f. record { site = f.site; names = f.names; starts = f.starts.items; missions = f.missions.items } };
}

impl Fleet {
    // The site is closed, and no robot is declared yet.
    pub(crate) fn of(declared: Ground) -> Fleet
        ensures { result ≡ closed declared }
    {
        let Ground {
            alloc,
            builder,
            names,
            link_count: _,
        } = declared;
        Fleet {
            alloc,
            site: builder.finish(),
            names,
            starts: Vec::new(alloc),
            missions: Vec::new(alloc),
        }
    }

    // A line `robot`.
    pub(crate) fn robot(&mut self, words: &mut Words) -> Result<(), Stop>
        requires { IsSound self.old }
        ensures { Gives (λ _. self.new) result (robot_line self.old words.old) }
    {
        let (name, start) = self.new_robot(words)?;
        let number = self.names.count_robots();
        self.starts.push(start)?;
        self.missions.push(None)?;
        add_name(&mut self.names, name, Thing::Robot(number))
    }

    // The name and the start of a new robot; else the least code.
    fn new_robot<'a>(&self, words: &mut Words<'a>) -> Result<(&'a [u8], CellNo), Stop>
        requires { IsSound self.now }
        ensures fine { OnOk result (IsFine (robot_rows self.now words.old)) }
        ensures name { IfOk result (λ r. r.0.now ≡ word words.old 0) }
        ensures good { IfOk result (λ r. is_name r.0.now ≡ true) }
        ensures start { IfOk result (λ r. r.1 ≡ cell_at self.now.names (word words.old 1)) }
        ensures bad { IfErr result (IsStop (robot_rows self.now words.old)) }
    {
        let (name, start) = two(words)?;
        if !is_name(name) || !is_name(start) {
            return Err(Stop::Bad(Code::S7));
        }
        check_free(&self.names, name)?;
        let Some(start) = cell_named(&self.names, start) else {
            return Err(Stop::Bad(Code::S11));
        };
        if self.starts.len() >= MAX_ROBOTS as usize {
            return Err(Stop::Bad(Code::S13));
        }
        if is_in_the_way(&self.site, &self.starts, start) {
            return Err(Stop::Bad(Code::S16));
        }
        Ok((name, start))
    }

    // A line `mission`.
    pub(crate) fn mission(&self, words: &mut Words) -> Result<Open, Stop>
        requires { IsSound self.now }
        ensures { Gives (λ mission. mission) result (mission_line self.now words.old) }
    {
        let name = one(words)?;
        if !is_name(name) {
            return Err(Stop::Bad(Code::S7));
        }
        let Some(robot) = robot_named(&self.names, name) else {
            return Err(Stop::Bad(Code::S11));
        };
        if self.missions[robot as usize].is_some() {
            return Err(Stop::Bad(Code::S17));
        }
        Ok(Open::new(self.alloc, robot))
    }

    // A line `done`.
    pub(crate) fn done(&mut self, mission: Open, words: &mut Words) -> Result<(), Stop>
        requires { mission.robot < length self.old.missions }
        ensures { Gives (λ _. self.new) result (done_line self.old mission words.old) }
    {
        none(words)?;
        if !mission.blocks.is_empty() {
            return Err(Stop::Bad(Code::S18));
        }
        self.missions[mission.robot as usize] = Some(mission.legs);
        Ok(())
    }

    // A line `end`.
    pub(crate) fn end(&self, words: &mut Words) -> Result<(), Stop>
        ensures { Gives (λ _. self.now) result (end_line self.now words.old) }
    {
        none(words)?;
        if self.starts.is_empty() {
            return Err(Stop::Bad(Code::S20));
        }
        Ok(())
    }

    // The scenario that was read.
    pub(crate) fn scenario(self) -> Result<Scenario, NoMemory>
        requires sound { IsSound self }
        requires some { 1 ≤ length self.starts }
        ensures { IfOk result (λ scenario. scenario ≡ scenario_in self) }
    {
        let missions = missions_of(self.alloc, self.missions)?;
        Ok(Scenario::of_parts(Parts {
            site: self.site,
            names: self.names,
            starts: Path::from_vec(self.starts),
            missions,
        }))
    }
}

// Whether the footprint of one of these cells conflicts with that of the start.
fn is_in_the_way(site: &Site, cells: &[CellNo], start: CellNo) -> bool
    requires start { start.0 < site.now.cells }
    requires cells { All (λ c. c.0 < site.now.cells) cells.now }
    ensures { result ≡ list_any (λ c. do_conflict site.now c start) cells.now }
{
    for cell in cells {
        if do_conflict(site, *cell, start) {
            return true;
        }
    }
    false
}

// Whether the footprints of the two cells conflict.
fn do_conflict(site: &Site, one: CellNo, other: CellNo) -> bool
    requires one { one.0 < site.now.cells }
    requires other { other.0 < site.now.cells }
    ensures { result ≡ do_conflict site.now one other }
{
    let others = site.footprint(other);
    let own = site.footprint(one);
    for claim in own.list() {
        if site.conflicts_with(*claim, others.list()) {
            return true;
        }
    }
    false
}
