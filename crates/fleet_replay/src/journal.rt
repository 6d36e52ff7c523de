// The replay of a journal as it is read: each entry stands in the coordinator's journal alone.
ghost use Rattle.std.specs.Prelude.{◌≡◌, ◌+◌, ◌-◌, ◌^◌, ◌<◌, ◌≤◌, All, length, IfOk};
ghost use Rattle.coordinator.specs.Books.{start_book};
ghost use Rattle.fleet_base.specs.declared.limits.TheConstants.{MAX_CAP, MAX_ROBOTS};
ghost use Rattle.fleet_model.specs.States.{start_state};
ghost use Rattle.fleet_names.specs.Names.{count_of};
ghost use Rattle.fleet_names.specs.Things.{is_robot};
ghost use Rattle.plan_journal.specs.Left.{IsWithin};
ghost use Rattle.plan_journal.specs.Reading.{journal_of};
ghost use Rattle.site_map.specs.Claims.{site_of};
ghost use Rattle.fleet_replay.specs.Replay.{numbered_on};
ghost use Rattle.site_lines.specs.declared.fault.At.{At};
ghost use Rattle.fleet_replay.specs.Stops.{Gives, numbered, run_of, run_value};
ghost use Rattle.fleet_replay.specs.declared.refused.ReplayFault.TheVariants.{Line};
ghost use Rattle.fleet_replay.specs.declared.refused.TextRefused.TheVariants.{Fault};

use crate::refused::{ReplayFault, TextRefused};
use coordinator::coordinator::Coordinator;
use fleet_base::limits::MAX_CAP;
use fleet_base::numbers::CellNo;
use fleet_names::names::Names;
use journal_replay::replay::replay_entry;
use plan_journal::reading::{Place, read_entry, read_header, read_rest};
use site_lines::fault::At;
use site_map::site::Site;
use std::alloc::Global;

// A journal that was replayed, and where its text ends.
#[derive(Drop)]
pub(crate) struct Run {
    pub(crate) fleet: Coordinator,
    pub(crate) end: Place,
}

// Replays the journal that a text begins with, which stands behind so many lines.
pub(crate) fn replay_behind(
    alloc: Global,
    site: Site,
    starts: &[CellNo],
    names: &Names,
    text: &[u8],
    lines: u32,
) -> Result<Run, TextRefused>
    requires few { length starts.now ≤ MAX_ROBOTS }
    requires known { All (λ a. a.0 < site.cells) starts.now }
    requires robots { count_of is_robot names.now ≤ 64 }
    requires short { lines + length text.now < 2 ^ 32 - 1 }
    ensures is { Gives run_value result (run_of (start_state (site_of site) starts.now MAX_CAP) (numbered_on lines (journal_of names.now text.now))) }
    ensures book { IfOk result (λ run. run.fleet ≡ record (start_book site starts.now MAX_CAP) { journal = run.fleet.journal }) }
    ensures within { IfOk result (λ run. IsWithin text.now run.end) }
{
    match replay_journal(alloc, site, starts, names, text) {
        Ok(run) => Ok(run),
        Err(refused) => Err(numbered(lines, refused)),
    }
}

// The same with the line's number in the whole text, where a line is bad that stands behind so many
// others.
fn numbered(lines: u32, refused: TextRefused) -> TextRefused
    requires { (at : At) → refused ≡ Fault (Line at) → lines + at.line < 2 ^ 32 }
    ensures { result ≡ numbered lines refused }
{
    match refused {
        TextRefused::Fault(ReplayFault::Line(at)) => TextRefused::from(At {
            line: lines + at.line,
            code: at.code,
        }),
        _ => refused,
    }
}

// Replays the journal that a text begins with. A bad line is named before an entry that differs, so
// what stands behind such an entry is still read.
fn replay_journal(
    alloc: Global,
    site: Site,
    starts: &[CellNo],
    names: &Names,
    text: &[u8],
) -> Result<Run, TextRefused>
    requires few { length starts.now ≤ MAX_ROBOTS }
    requires known { All (λ a. a.0 < site.cells) starts.now }
    requires robots { count_of is_robot names.now ≤ 64 }
    requires short { length text.now < 2 ^ 32 - 1 }
    ensures is { Gives run_value result (run_of (start_state (site_of site) starts.now MAX_CAP) (journal_of names.now text.now)) }
    ensures book { IfOk result (λ run. run.fleet ≡ record (start_book site starts.now MAX_CAP) { journal = run.fleet.journal }) }
    ensures within { IfOk result (λ run. IsWithin text.now run.end) }
{
    let mut end = read_header(text)?;
    // The starts of a scenario are some and don't conflict, so where they are refused memory lacks.
    let Ok(mut fleet) = Coordinator::new(alloc, site, starts, MAX_CAP) else {
        return Err(TextRefused::NoMemory);
    };
    while let Some(entry) = read_entry(alloc, text, names, &mut end)? {
        fleet = match replay_entry(fleet, &entry) {
            Ok(fleet) => fleet,
            Err(refused) => {
                read_rest(alloc, text, names, end)?;
                return Err(TextRefused::from(refused));
            }
        };
    }
    Ok(Run { fleet, end })
}
