//! The form `replay`.

ghost use Rattle.std.specs.Prelude.{◌≡◌, ◌^◌, ◌-◌, ◌<◌, length};
ghost use Rattle.form_base.specs.Stops.{Answers};
ghost use Rattle.fleet_replay.specs.Form.{replay_form, stop_of};

use crate::refused::{ReplayFault, TextRefused};
use crate::replay::replay_text;
use form_base::{Fault, Report, Stop, done};
use std::alloc::Global;

/// The text of the state that the journal reaches which the input has behind its scenario, or the
/// input's fault.
///
/// The input has fewer than 4,294,967,295 bytes.
pub fn replay_form(alloc: Global, input: &[u8]) -> Result<Report, Stop>
    requires { length input.now < 2 ^ 32 - 1 }
    // The answer is the one that is due, with its cause, or tells the state of a sound run; or
    // memory ran out.
    ensures { Answers replay_form input.now result }
{
    match replay_text(alloc, input) {
        Ok(text) => Ok(done(text)),
        Err(refused) => Err(stop_of(refused)),
    }
}

// Why a text isn't replayed, as the program says it.
fn stop_of(refused: TextRefused) -> Stop
    ensures { result ≡ stop_of refused }
{
    match refused {
        TextRefused::Fault(ReplayFault::Line(at)) => Stop::Refused(Fault::Line(at)),
        TextRefused::Fault(ReplayFault::Entry(entry)) => Stop::Refused(Fault::Entry(entry)),
        TextRefused::NoMemory => Stop::NoMemory,
    }
}
