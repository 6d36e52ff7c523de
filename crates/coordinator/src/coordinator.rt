//! The coordinator.

ghost use Rattle.std.specs.Prelude.{◌≡◌, ◌<◌, ◌≤◌, ℕ, All, IfOk, IfErr, OnOk, None, List, [], ◌∷◌, ◌++◌, length, take, slice_get};
ghost use Rattle.std.specs.Option.{option_map};
ghost use Rattle.fleet_base.specs.Lists.{robots_of};
ghost use Rattle.fleet_base.specs.declared.numbers.Event.{Event};
ghost use Rattle.fleet_model.specs.Good.{IsGood};
ghost use Rattle.fleet_base.specs.declared.marks.Mark.{Mark};
ghost use Rattle.fleet_model.specs.Journals.{IsJournal, state_after};
ghost use Rattle.fleet_model.specs.Segments.{StandAlone, entries_between, marks, segment_end};
ghost use Rattle.fleet_model.specs.Plans.{cell_of, end_of, own, unfinished};
ghost use Rattle.fleet_model.specs.Sites.{IsSite};
ghost use Rattle.fleet_model.specs.States.{cycle_of, owed, pending_of};
ghost use Rattle.fleet_model.specs.Tables.{held_by};
ghost use Rattle.site_map.specs.Claims.{site_of};
ghost use Rattle.coordinator.specs.Books.{opening_of, start_book, state_of};
ghost use Rattle.coordinator.specs.Lent.{AnswersForPlan};
ghost use Rattle.coordinator.specs.Openings.{IsRefusal, opening_cause};

use crate::opening::{clash, first_marks, standing_at, tables_of};
use crate::refused::NewRefused;
use crate::tables::Tables;
use cycle_cert::cycle_through;
use event_graph::graph::EventGraph;
use fleet_base::entries::Entry;
use fleet_base::held::Held;
use fleet_base::limits::{MAX_CAP, MAX_ROBOTS};
use fleet_base::marks::{Checkpoint, Mark};
use fleet_base::numbers::{CellNo, Event, EventNo, RobotNo};
use fleet_base::robot_list::RobotList;
use site_map::site::Site;
use std::alloc::Global;
use std::marker::Model;

/// The coordinator of a fleet. Contracts see its site, where the robots started, with which pending
/// routes and which number, its cap and the journal of all accepted calls; everything else about the
/// fleet follows from these.
#[derive(Drop)]
pub struct Coordinator {
    pub(crate) alloc: Global,
    pub(crate) site: Site,
    pub(crate) from: Checkpoint,
    pub(crate) cap: u32,
    pub(crate) journal: Vec<Entry>,
    pub(crate) marks: Vec<Mark>,
    pub(crate) tables: Tables,
}

impl Model for Coordinator {
    ghost use Rattle.coordinator.specs.Books.{Book};

    ghost Value = { Book };

    ghost use Rattle.coordinator.specs.Kept.{shown, IsKept};

    ghost view = { shown };

    ghost invariant = { IsKept };
}

impl Coordinator {
    /// A coordinator of robots that start in these cells, with an empty journal. On a refusal the
    /// site is given up.
    pub fn new(
        alloc: Global,
        site: Site,
        starts: &[CellNo],
        cap: u32,
    ) -> Result<Coordinator, NewRefused>
        requires few { length starts.now ≤ MAX_ROBOTS }
        requires known { All (λ a. a.0 < site.cells) starts.now }
        requires cap { cap ≤ MAX_CAP }
        ensures accepted { OnOk result (opening_cause (site_of site) starts.now ≡ None) }
        ensures refused { IfErr result (IsRefusal (opening_cause (site_of site) starts.now)) }
        ensures book { IfOk result (λ c. c ≡ start_book site starts.now cap) }
    {
        if starts.is_empty() {
            return Err(NewRefused::NoRobot);
        }
        if let Some(clash) = clash(&site, starts) {
            return Err(clash);
        }
        let (Ok(tables), Ok(from), Ok(marks)) = (
            tables_of(alloc, &site, starts, EventNo(1)),
            standing_at(alloc, starts),
            first_marks(alloc, EventNo(1)),
        ) else {
            return Err(NewRefused::NoMemory);
        };
        Ok(Coordinator {
            alloc,
            site,
            from,
            cap,
            journal: Vec::new(alloc),
            marks,
            tables,
        })
    }

    /// The number of robots.
    pub fn robots(&self) -> u32
        ensures starts { result ≡ length self.now.starts }
        ensures state { result ≡ length (state_of self.now).fleet.starts }
        ensures some { 0 < result }
        ensures few { result ≤ MAX_ROBOTS }
    {
        self.from.at.len() as u32
    }

    /// The journal of all accepted calls. What every coordinator keeps is said here.
    pub fn journal(&self) -> &[Entry]
        ensures entries { result.now ≡ self.now.journal }
        ensures legal { IsJournal (opening_of self.now) self.now.journal }
        ensures site { IsSite (site_of self.now.site) }
        ensures opening { IsGood (opening_of self.now) }
        ensures state { IsGood (state_of self.now) }

        // What no call changes, and how many calls were accepted.
        ensures starts { All (λ a. a.0 < self.now.site.cells) self.now.starts }
        ensures same_site { (state_of self.now).fleet.site ≡ site_of self.now.site }
        ensures same_starts { (state_of self.now).fleet.starts ≡ self.now.starts }
        ensures same_cap { (state_of self.now).cap ≡ self.now.cap }
        ensures count { (state_of self.now).count ≡ length self.now.journal }
    {
        &self.journal
    }

    /// The marks of the journal: at its opening, and before each entry that opens a segment. For each
    /// of them the entries up to the next, or to the end, stand alone.
    pub fn marks(&self) -> &[Mark]
        ensures marks { result.now ≡ marks (opening_of self.now) self.now.journal }
        ensures segments { (earlier : List Mark) (mark : Mark) (later : List Mark) → result.now ≡ earlier ++ mark ∷ later
            → StandAlone (state_after (opening_of self.now) (take mark.before self.now.journal))
            (entries_between mark.before (segment_end later self.now.journal) self.now.journal) }
    {
        &self.marks
    }

    /// The site.
    pub fn site(&self) -> &Site
        ensures { result.now ≡ self.now.site }
    {
        &self.site
    }

    /// The cell that the robot started in.
    pub fn start(&self, robot: RobotNo) -> CellNo
        requires { robot.0 < length self.now.starts }
        ensures value { slice_get self.now.starts robot.0 ≡ Some result }
        ensures known { result.0 < self.now.site.cells }
    {
        self.from.at[robot.0 as usize]
    }

    /// What the robots started with: the first number of the run, and each robot's cell and pending
    /// route.
    pub fn opening(&self) -> &Checkpoint
        ensures next { result.now.next.0 ≡ self.now.first }
        ensures at { result.now.at.items ≡ self.now.starts }
        ensures pending { result.now.pending.items ≡ self.now.pending }
    {
        &self.from
    }

    /// The most that the entries of the current segment and what is owed may be together.
    pub fn cap(&self) -> u32
        ensures value { result ≡ self.now.cap }
        ensures small { result ≤ MAX_CAP }
    {
        self.cap
    }

    /// The number of unfinished events and of pending routes.
    pub fn owed(&self) -> u64
        ensures { result ≡ owed (state_of self.now) }
    {
        self.tables.owed
    }

    /// The number of the next event to be merged.
    pub fn next_number(&self) -> EventNo
        ensures { result.0 ≡ (state_of self.now).fleet.next }
    {
        self.tables.graph.next_number()
    }

    /// The graph of the unfinished events. What it answers of them is what the whole plan gives.
    pub fn graph(&self) -> &EventGraph
        ensures robots { result.now.robots ≡ length self.now.starts }
        ensures groups { result.now.groups ≡ (site_of self.now.site).groups }
        ensures events { result.now.events ≡ unfinished (state_of self.now).fleet }
        ensures next { result.now.next ≡ (state_of self.now).fleet.next }
        ensures plan { AnswersForPlan result.now (state_of self.now).fleet }
    {
        &self.tables.graph
    }

    /// The cell that the robot is in, by what was reported.
    pub fn at(&self, robot: RobotNo) -> CellNo
        requires { robot.0 < length self.now.starts }
        ensures value { result ≡ cell_of (state_of self.now).fleet robot.0 }
        ensures known { result.0 < self.now.site.cells }
    {
        self.tables.robots.at(robot)
    }

    /// The cell that the robot is in after all its events in the plan.
    pub fn end(&self, robot: RobotNo) -> CellNo
        requires { robot.0 < length self.now.starts }
        ensures value { result ≡ end_of (state_of self.now).fleet robot.0 }
        ensures known { result.0 < self.now.site.cells }
    {
        self.tables.robots.end(robot)
    }

    /// The claims that the robot holds, by what was reported, ascending.
    pub fn holds(&self, robot: RobotNo) -> &Held
        requires { robot.0 < length self.now.starts }
        ensures { result.now ≡ held_by (state_of self.now).fleet robot.0 }
    {
        self.tables.robots.held(robot)
    }

    /// The robot's unfinished event at that place, from 0. None where there are no more.
    pub fn unfinished(&self, robot: RobotNo, index: u32) -> Option<Event>
        requires { robot.0 < length self.now.starts }
        ensures { result ≡ slice_get (own robot.0 (unfinished (state_of self.now).fleet)) index }
    {
        self.tables.graph.unfinished(robot, index)
    }

    /// The number of the robot's unfinished events.
    pub fn left(&self, robot: RobotNo) -> u32
        requires { robot.0 < length self.now.starts }
        ensures { result ≡ length (own robot.0 (unfinished (state_of self.now).fleet)) }
    {
        self.tables.graph.left(robot)
    }

    /// The cells of the robot's pending route. None where it has none.
    pub fn pending(&self, robot: RobotNo) -> Option<&[CellNo]>
        requires { robot.0 < length self.now.starts }
        ensures { option_map (λ cells. cells.now) result ≡ pending_of (state_of self.now) robot.0 }
    {
        self.tables.deferrals.pending(robot)
    }

    /// The cycle of deferrals through the robot: the shortest, and of the shortest ones the least
    /// as a list that begins with the robot. Empty where there is none.
    pub fn cycle_of(&self, robot: RobotNo) -> RobotList
        requires { robot.0 < length self.now.starts }
        ensures { result ≡ robots_of (cycle_of (state_of self.now) robot.0) }
    {
        cycle_through(self.tables.deferrals.edges(), robot)
    }
}
