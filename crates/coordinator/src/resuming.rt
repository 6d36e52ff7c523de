//! Coordinators that go on from a checkpoint.

ghost use Rattle.std.specs.Prelude.{◌≡◌, ◌<◌, ◌≤◌, ◌^◌, All, IfOk, IfErr, OnOk, [], None, length, map};
ghost use Rattle.fleet_model.specs.Sites.{IsSite};
ghost use Rattle.fleet_model.specs.States.{opening_state};
ghost use Rattle.fleet_model.specs.Tables.{IsCounted};
ghost use Rattle.deferral.specs.Backlogs.{pending_of};
ghost use Rattle.site_map.specs.Claims.{site_of};
ghost use Rattle.coordinator.specs.Kept.{Shows};
ghost use Rattle.coordinator.specs.Openings.{bad_pending, is_bad, IsResumeRefusal, resume_cause};
ghost use Rattle.coordinator.specs.Resuming.{early_cause, HasShape, IsPut};

use crate::coordinator::Coordinator;
use crate::opening::{clash, first_marks, tables_of};
use crate::refused::{NewRefused, ResumeRefused};
use crate::tables::Tables;
use fleet_base::limits::{MAX_CAP, MAX_FIRST, MAX_ROBOTS};
use fleet_base::marks::Checkpoint;
use fleet_base::numbers::{CellNo, RobotNo};
use fleet_base::path::{NoMemory, Path};
use plan_events::expansion::needs;
use plan_events::shape::check_shape;
use site_map::site::Site;
use std::alloc::Global;

impl Coordinator {
    /// A coordinator of robots that go on from a checkpoint, with an empty journal. Refused are, in
    /// this order: starts that `new` refuses, a number that isn't from 1 to 100,000,000,000,000, a
    /// pending route that isn't a legal one from its robot's cell, and more of them than the cap. On a refusal the
    /// site is given up.
    pub fn resume(
        alloc: Global,
        site: Site,
        from: &Checkpoint,
        cap: u32,
    ) -> Result<Coordinator, ResumeRefused>
        requires few { length from.now.at.items ≤ MAX_ROBOTS }
        requires known { All (λ a. a.0 < site.cells) from.now.at.items }
        requires places { length from.now.pending.items ≡ length from.now.at.items }
        requires cap { cap ≤ MAX_CAP }
        ensures accepted { OnOk result (resume_cause (site_of site) from.now.at.items from.now.pending.items from.now.next.0 cap ≡ None) }
        ensures refused { IfErr result (IsResumeRefusal (resume_cause (site_of site) from.now.at.items from.now.pending.items from.now.next.0 cap)) }
        ensures book { IfOk result (λ c. c ≡ record {
          site = site;
          starts = from.now.at.items;
          pending = from.now.pending.items;
          first = from.now.next.0;
          cap = cap;
          journal = [];
        }) }
    {
        if let Some(cause) = early_cause(&site, from) {
            return Err(cause);
        }
        let Ok(tables) = resumed_tables(alloc, &site, from) else {
            return Err(ResumeRefused::NoMemory);
        };
        if u64::from(cap) < tables.owed {
            return Err(ResumeRefused::Crowded);
        }
        let (Ok(from), Ok(marks), Ok(journal)) = (
            copy_of(alloc, from),
            first_marks(alloc, from.next),
            Vec::with_capacity(alloc, tables.owed as usize),
        ) else {
            return Err(ResumeRefused::NoMemory);
        };
        Ok(Coordinator {
            alloc,
            site,
            from,
            cap,
            journal,
            marks,
            tables,
        })
    }
}

// Why no run opens with this checkpoint, whatever its cap; the first cause.
fn early_cause(site: &Site, from: &Checkpoint) -> Option<ResumeRefused>
    requires few { length from.now.at.items ≤ 64 }
    requires known { All (λ a. a.0 < site.now.cells) from.now.at.items }
    requires places { length from.now.pending.items ≡ length from.now.at.items }
    ensures { result ≡ early_cause (site_of site.now) from.now.at.items from.now.pending.items from.now.next.0 }
{
    if from.at.is_empty() {
        return Some(ResumeRefused::New(NewRefused::NoRobot));
    }
    if let Some(clash) = clash(site, &from.at) {
        return Some(ResumeRefused::New(clash));
    }
    if from.next.0 < 1 || MAX_FIRST < from.next.0 {
        return Some(ResumeRefused::BadNext);
    }
    match bad_pending(site, &from.at, &from.pending) {
        Some(robot) => Some(ResumeRefused::BadPending(robot)),
        None => None,
    }
}

// The least robot whose pending route isn't a legal one from its cell.
fn bad_pending(site: &Site, at: &[CellNo], pending: &[Option<Path>]) -> Option<RobotNo>
    requires few { length at.now ≤ 64 }
    requires places { length pending.now ≡ length at.now }
    ensures { result ≡ bad_pending (site_of site.now) 0 at.now pending.now }
{
    for (robot, route) in pending.iter().enumerate() {
        if is_bad(site, at[robot], route) {
            return Some(RobotNo(robot as u32));
        }
    }
    None
}

// Whether the pending route isn't a legal one from the cell.
fn is_bad(site: &Site, cell: CellNo, route: &Option<Path>) -> bool
    ensures { result ≡ is_bad (site_of site.now) cell route.now }
{
    match route {
        Some(route) => {
            let cells = route.cells();
            check_shape(site, cells).is_err() || cells[0] != cell
        }
        None => false,
    }
}

// The tables of robots that go on from the checkpoint.
fn resumed_tables(alloc: Global, site: &Site, from: &Checkpoint) -> Result<Tables, NoMemory>
    requires few { length from.now.at.items ≤ 64 }
    requires known { All (λ a. a.0 < site.now.cells) from.now.at.items }
    requires places { length from.now.pending.items ≡ length from.now.at.items }
    requires legal { bad_pending (site_of site.now) 0 from.now.at.items from.now.pending.items ≡ None }
    ensures tables { IfOk result (λ t. Shows t (opening_state (site_of site.now) from.now.at.items from.now.pending.items from.now.next.0 0)) }
    ensures site { IsSite (site_of site.now) }
    ensures counted { IsCounted (site_of site.now) }
{
    let mut tables = tables_of(alloc, site, &from.at, from.next)?;
    for (robot, route) in from.pending.iter().enumerate() {
        put_route(alloc, &mut tables, site, RobotNo(robot as u32), route)?;
    }
    Ok(tables)
}

// Keeps the route, where there is one, as the robot's pending one.
fn put_route(
    alloc: Global,
    tables: &mut Tables,
    site: &Site,
    robot: RobotNo,
    route: &Option<Path>,
) -> Result<(), NoMemory>
    requires known { robot.0 < length tables.old.deferrals.pending }
    requires free { pending_of tables.old.deferrals robot.0 ≡ None }
    requires small { tables.old.owed < 2 ^ 63 }
    requires shape { HasShape (site_of site.now) route.now }
    ensures { OnOk result (IsPut (site_of site.now) tables.old tables.new robot.0 route.now) }
{
    if let Some(route) = route {
        let needed = needs(site, route.cells());
        let kept = Path::copy_of(alloc, route.cells())?;
        tables.defer(robot, kept, needed);
    }
    Ok(())
}

// A copy of the checkpoint.
fn copy_of(alloc: Global, from: &Checkpoint) -> Result<Checkpoint, NoMemory>
    ensures next { IfOk result (λ copy. copy.next ≡ from.now.next) }
    ensures at { IfOk result (λ copy. copy.at.items ≡ from.now.at.items) }
    ensures pending { IfOk result (λ copy. copy.pending.items ≡ from.now.pending.items) }
{
    let mut pending = Vec::with_capacity(alloc, from.pending.len())?;
    for route in &from.pending {
        pending.push_reserved(copy_of_route(alloc, route)?);
    }
    Ok(Checkpoint {
        next: from.next,
        at: Vec::from_slice(alloc, &from.at)?,
        pending,
    })
}

// A copy of a route, where there is one.
fn copy_of_route(alloc: Global, route: &Option<Path>) -> Result<Option<Path>, NoMemory>
    ensures { IfOk result (λ copy. copy ≡ route.now) }
{
    match route {
        Some(route) => Ok(Some(Path::copy_of(alloc, route.cells())?)),
        None => Ok(None),
    }
}
