//! What a coordinator opens with.

ghost use Rattle.std.specs.Prelude.{◌≡◌, ◌+◌, ◌<◌, ◌≤◌, ℕ, All, IfOk, None, [], ◌∷◌, length, map, replicate};
ghost use Rattle.fleet_model.specs.Sites.{IsSite, footprint_of};
ghost use Rattle.fleet_model.specs.Tables.{IsCounted};
ghost use Rattle.fleet_model.specs.States.{opening_state};
ghost use Rattle.site_map.specs.Claims.{site_of};
ghost use Rattle.coordinator.specs.Kept.{Shows};
ghost use Rattle.coordinator.specs.Openings.{clash_from, clash_with, kept_claim};

use crate::refused::NewRefused;
use crate::tables::Tables;
use deferral::Deferrals;
use event_graph::graph::EventGraph;
use fleet_base::claims::Claims;
use fleet_base::marks::{Checkpoint, Mark};
use fleet_base::numbers::{CellNo, ClaimGroup, ClaimNo, EventNo, RobotNo};
use fleet_base::path::NoMemory;
use robot_tables::tables::RobotTables;
use site_map::site::Site;
use std::alloc::Global;

// The first two robots whose starts' footprints conflict.
pub(crate) fn clash(site: &Site, starts: &[CellNo]) -> Option<NewRefused>
    requires few { length starts.now ≤ 64 }
    requires known { All (λ a. a.0 < site.now.cells) starts.now }
    ensures { result ≡ clash_from (site_of site.now) 0 starts.now }
{
    for (one, start) in starts.iter().enumerate() {
        let clash = clash_with(site, RobotNo(one as u32), *start, &starts[one + 1..]);
        if clash.is_some() {
            return clash;
        }
    }
    None
}

// The first clash of this robot with one of those behind it, which start in these cells.
fn clash_with(site: &Site, one: RobotNo, start: CellNo, others: &[CellNo]) -> Option<NewRefused>
    requires few { one.0 + length others.now < 64 }
    requires start { start.0 < site.now.cells }
    requires known { All (λ a. a.0 < site.now.cells) others.now }
    ensures { result ≡ clash_with (site_of site.now) one.0 start (one.0 + 1) others.now }
{
    for (place, other) in others.iter().enumerate() {
        if let Some(claim) = first_kept(site, start, *other) {
            let other = RobotNo(one.0 + 1 + place as u32);
            return Some(NewRefused::Clash { one, other, claim });
        }
    }
    None
}

// The first claim of the one cell that conflicts with one of the other's.
fn first_kept(site: &Site, one: CellNo, other: CellNo) -> Option<ClaimNo>
    requires one { one.0 < site.now.cells }
    requires other { other.0 < site.now.cells }
    ensures { result ≡ kept_claim (site_of site.now) one other }
{
    let footprint = site.footprint(one);
    for claim in footprint.list() {
        if site.is_kept_from(*claim, other) {
            return Some(*claim);
        }
    }
    None
}

// The checkpoint of robots that stand in these cells with nothing pending, in a run that begins with
// number 1.
pub(crate) fn standing_at(alloc: Global, starts: &[CellNo]) -> Result<Checkpoint, NoMemory>
    ensures at { IfOk result (λ from. from.at.items ≡ starts.now) }
    ensures pending { IfOk result (λ from. from.pending.items ≡ map (λ a. None) starts.now) }
    ensures next { IfOk result (λ from. from.next ≡ record { 0 = 1 }) }
{
    let at = Vec::from_slice(alloc, starts)?;
    let mut pending = Vec::with_capacity(alloc, starts.len())?;
    for _start in starts {
        pending.push_reserved(None);
    }
    Ok(Checkpoint {
        next: EventNo(1),
        at,
        pending,
    })
}

// The marks of a journal without entries, in a run that begins with this number.
pub(crate) fn first_marks(alloc: Global, next: EventNo) -> Result<Vec<Mark>, NoMemory>
    ensures { IfOk result (λ marks. marks.items ≡ record { before = 0; next = next } ∷ []) }
{
    let mut marks = Vec::with_capacity(alloc, 1)?;
    marks.push_reserved(Mark { before: 0, next });
    Ok(marks)
}

// The tables of robots that start in these cells with nothing pending, in a run that begins with this
// number.
pub(crate) fn tables_of(
    alloc: Global,
    site: &Site,
    starts: &[CellNo],
    next: EventNo,
) -> Result<Tables, NoMemory>
    requires few { length starts.now ≤ 64 }
    requires known { All (λ a. a.0 < site.now.cells) starts.now }
    ensures tables { IfOk result (λ t. (cap : ℕ) → Shows t (opening_state (site_of site.now) starts.now (map (λ a. None) starts.now) next.0 cap)) }
    ensures site { IsSite (site_of site.now) }
    ensures counted { IsCounted (site_of site.now) }
{
    let _cells = site.cell_count(); // with its clauses: every site is one that the rules speak of
    let groups = groups_of(alloc, site)?;
    let robots = starts.len() as u32;
    let mut deferrals = Deferrals::new(alloc, &groups, robots)?;
    tell_starts(alloc, &mut deferrals, site, starts);
    Ok(Tables {
        graph: EventGraph::new(alloc, robots, &groups, next)?,
        robots: RobotTables::new(alloc, site, starts)?,
        deferrals,
        owed: 0,
    })
}

// The groups of the site's claims.
fn groups_of(alloc: Global, site: &Site) -> Result<Vec<ClaimGroup>, NoMemory>
    ensures groups { IfOk result (λ groups. groups.items ≡ (site_of site.now).groups) }
    ensures few { IfOk result (λ groups. length groups.items ≤ 1280) }
{
    let count = site.claim_count();
    let mut groups = Vec::with_capacity(alloc, count as usize)?;
    for claim in 0..count {
        groups.push_reserved(site.group(ClaimNo(claim)));
    }
    Ok(groups)
}

// Each robot's end has the footprint of its start.
fn tell_starts(alloc: Global, deferrals: &mut Deferrals, site: &Site, starts: &[CellNo])
    requires few { length starts.now ≤ 64 }
    requires known { All (λ a. a.0 < site.now.cells) starts.now }
    requires ends { deferrals.old.ends ≡ replicate (length starts.now) [] }
    ensures { deferrals.new ≡ record deferrals.old { ends = map (footprint_of (site_of site.now)) starts.now } }
{
    let nothing = Claims::new(alloc);
    for (robot, start) in starts.iter().enumerate() {
        deferrals.end_changed(RobotNo(robot as u32), &nothing, &site.footprint(*start));
    }
}
