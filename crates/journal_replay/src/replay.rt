//! The replay of a journal, from starts and from a checkpoint.

ghost use Rattle.std.specs.Prelude.{◌≡◌, ◌<◌, ◌≤◌, ℕ, All, IfOk, IfErr, OnOk, [], None, length, map};
ghost use Rattle.fleet_base.specs.declared.limits.TheConstants.{MAX_CAP, MAX_ROBOTS};
ghost use Rattle.fleet_model.specs.States.{opening_state, start_state};
ghost use Rattle.site_map.specs.Claims.{site_of};
ghost use Rattle.coordinator.specs.Books.{opening_of, with_entries};
ghost use Rattle.coordinator.specs.Openings.{IsRefusal, IsResumeRefusal, opening_cause, resume_cause};
ghost use Rattle.fleet_model.specs.Journals.{IsJournal};
ghost use Rattle.journal_replay.specs.Differing.{DiffersAt};
ghost use Rattle.journal_replay.specs.Refusals.{OnCheckpoint, OnDiffers, OnEntry, OnNew, OnResumed};
ghost use Rattle.journal_replay.specs.Taken.{IsReplayed};

use crate::entry::{EntryRefused, take_entry};
use crate::refused::{EntriesRefused, ReplayRefused, ResumeRefused};
use coordinator::coordinator::Coordinator;
use fleet_base::entries::Entry;
use fleet_base::marks::Checkpoint;
use fleet_base::numbers::CellNo;
use site_map::site::Site;
use std::alloc::Global;

/// The coordinator of robots that start in these cells, once the calls that the entries record were
/// made, one after the other, and each had just its entry's answer. The entries may hold any
/// numbers. On a refusal the site is given up.
///
/// There are at most 64 starts, each a cell of the site, and the cap is at most 1,000,000.
pub fn replay(
    alloc: Global,
    site: Site,
    starts: &[CellNo],
    cap: u32,
    entries: &[Entry],
) -> Result<Coordinator, ReplayRefused>
    requires few { length starts.now ≤ MAX_ROBOTS }
    requires known { All (λ a. a.0 < site.cells) starts.now }
    requires cap { cap ≤ MAX_CAP }
    // Ok is given for starts that `new` takes and a legal journal alone.
    ensures opens { OnOk result (opening_cause (site_of site) starts.now ≡ None) }
    ensures legal { OnOk result (IsJournal (start_state (site_of site) starts.now cap) entries.now) }
    // Its journal is the entries.
    ensures book { IfOk result (λ c. c ≡ record {
      site = site;
      starts = starts.now;
      pending = map (λ a. None) starts.now;
      first = 1;
      cap = cap;
      journal = entries.now;
    }) }
    // Starts are refused as `new` refuses them.
    ensures refused { IfErr result (OnNew (IsRefusal (opening_cause (site_of site) starts.now))) }
    // The entry that is named is the first that isn't legal; none is where the starts are refused.
    ensures differs { IfErr result (OnDiffers (DiffersAt (start_state (site_of site) starts.now cap) entries.now)) }
    ensures opened { IfErr result (OnDiffers (λ n. opening_cause (site_of site) starts.now ≡ None)) }
{
    let fleet = Coordinator::new(alloc, site, starts, cap)?;
    Ok(replay_all(fleet, entries)?)
}

/// The coordinator of robots that go on from a checkpoint, once the calls that the entries record
/// were made, one after the other, and each had just its entry's answer. The entries may hold any
/// numbers. Refused are, in this order: starts that `new` refuses, a number that isn't from 1 to
/// 100,000,000,000,000, a pending route that isn't a legal one from its robot's cell, more of them
/// than the cap, and an entry that differs. On a refusal the site is given up.
///
/// There are at most 64 robots, each in a cell of the site and with a place for a pending route, and
/// the cap is at most 1,000,000.
pub fn resume(
    alloc: Global,
    site: Site,
    from: &Checkpoint,
    cap: u32,
    entries: &[Entry],
) -> Result<Coordinator, ResumeRefused>
    requires few { length from.now.at.items ≤ MAX_ROBOTS }
    requires known { All (λ a. a.0 < site.cells) from.now.at.items }
    requires places { length from.now.pending.items ≡ length from.now.at.items }
    requires cap { cap ≤ MAX_CAP }
    // Ok is given for a checkpoint that a run may open with and a legal journal from it alone.
    ensures opens { OnOk result (resume_cause (site_of site) from.now.at.items from.now.pending.items from.now.next.0 cap ≡ None) }
    ensures legal { OnOk result (IsJournal (opening_state (site_of site) from.now.at.items from.now.pending.items from.now.next.0 cap) entries.now) }
    // Its journal is the entries.
    ensures book { IfOk result (λ c. c ≡ record {
      site = site;
      starts = from.now.at.items;
      pending = from.now.pending.items;
      first = from.now.next.0;
      cap = cap;
      journal = entries.now;
    }) }
    // A checkpoint is refused for its first cause.
    ensures refused { IfErr result (OnCheckpoint (IsResumeRefusal (resume_cause (site_of site) from.now.at.items from.now.pending.items from.now.next.0 cap))) }
    // The entry that is named is the first that isn't legal; none is where the checkpoint is refused.
    ensures differs { IfErr result (OnResumed (DiffersAt (opening_state (site_of site) from.now.at.items from.now.pending.items from.now.next.0 cap) entries.now)) }
    ensures opened { IfErr result (OnResumed (λ n. resume_cause (site_of site) from.now.at.items from.now.pending.items from.now.next.0 cap ≡ None)) }
{
    let fleet = Coordinator::resume(alloc, site, from, cap)?;
    Ok(replay_all(fleet, entries)?)
}

// The coordinator, which has no entry yet, once each of these was replayed.
fn replay_all(mut fleet: Coordinator, entries: &[Entry]) -> Result<Coordinator, EntriesRefused>
    requires { fleet.journal ≡ [] }
    ensures legal { OnOk result (IsJournal (opening_of fleet) entries.now) }
    ensures book { IfOk result (λ c. c ≡ with_entries fleet entries.now) }
    ensures differs { IfErr result (OnEntry (DiffersAt (opening_of fleet) entries.now)) }
{
    for entry in entries {
        fleet = replay_entry(fleet, entry)?;
    }
    Ok(fleet)
}

/// The coordinator once the call that an entry records was made, and had just this entry's answer.
/// The entry may hold any numbers. On a refusal the coordinator is given up.
pub fn replay_entry(mut fleet: Coordinator, entry: &Entry) -> Result<Coordinator, EntriesRefused>
    ensures { IsReplayed entry.now fleet result }
{
    let before = fleet.journal().len() as u32;
    match take_entry(&mut fleet, entry) {
        Ok(()) => Ok(fleet),
        Err(EntryRefused::Differs) => Err(EntriesRefused::Differs { entry: before + 1 }),
        Err(EntryRefused::NoMemory) => Err(EntriesRefused::NoMemory),
    }
}
