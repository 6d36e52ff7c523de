//! A journal behind its scenario, replayed.

ghost use Rattle.std.specs.Prelude.{◌≡◌, ◌^◌, ◌-◌, ◌<◌, Err, IfOk, Ok, length};
ghost use Rattle.fleet_replay.specs.Form.{IsReplayFault, fault_of};
ghost use Rattle.fleet_replay.specs.Replay.{ReplayValue, replay_of, replay_text};
ghost use Rattle.fleet_replay.specs.Sound.{ReplaysSoundly};
ghost use Rattle.fleet_replay.specs.Stops.{Gives};
ghost use Rattle.fleet_replay.specs.declared.refused.ReplayFault.{ReplayFault};
ghost use Rattle.fleet_replay.specs.declared.refused.TextRefused.TheVariants.{Fault};

use crate::header::check_header;
use crate::journal::{Run, replay_behind};
use crate::refused::TextRefused;
use crate::tail::check_tail;
use fleet_report::state::state_text;
use scenario::scenario::Parts;
use scenario_reader::read::read_front;
use std::alloc::Global;

/// The text of the state that a journal reaches, which stands behind its scenario. Behind the
/// journal that text may stand again, and nothing else. A text that isn't such a one is refused: for
/// its first bad line, or else for the first entry that differs, or else for the first line of a
/// journal that is more than one segment, or else for the first line in which what stands behind the
/// journal differs from the state's text.
///
/// The text has fewer than 4,294,967,295 bytes.
pub fn replay_text(alloc: Global, input: &[u8]) -> Result<Vec<u8>, TextRefused>
    requires { length input.now < 2 ^ 32 - 1 }
    // The text is the state's, or the refusal names the fault; or memory ran out.
    ensures is { Gives (λ text. text.items) result (replay_text input.now) }
    // A fault that is named is in the text.
    ensures causes { (fault : ReplayFault) → result ≡ Err (Fault fault) → IsReplayFault input.now (fault_of fault) }
    // The journal that is taken is legal and sound, and the state that is printed is the one that it
    // reaches.
    ensures sound { IfOk result (λ text. (replay : ReplayValue) → replay_of input.now ≡ Ok replay → ReplaysSoundly replay text.items) }
{
    replayed(alloc, input)
}

// The same, by the clauses of which `causes` is a consequence.
fn replayed(alloc: Global, input: &[u8]) -> Result<Vec<u8>, TextRefused>
    requires { length input.now < 2 ^ 32 - 1 }
    ensures is { Gives (λ text. text.items) result (replay_text input.now) }
    ensures sound { IfOk result (λ text. (replay : ReplayValue) → replay_of input.now ≡ Ok replay → ReplaysSoundly replay text.items) }
{
    let front = read_front(alloc, input)?;
    let (_, behind) = input.split_at(front.used);
    let Parts {
        site,
        names,
        starts,
        ..
    } = front.scenario.into_parts();
    let Run { fleet, end } = replay_behind(
        alloc,
        site,
        starts.cells(),
        &names,
        behind,
        front.lines,
    )?;
    check_header(fleet.marks(), front.lines)?;
    // What every coordinator keeps is said by its journal.
    let _kept = fleet.journal();
    let text = state_text(alloc, &names, &fleet)?;
    let (_, tail) = behind.split_at(end.used);
    check_tail(tail, &text, front.lines + end.lines)?;
    Ok(text)
}
