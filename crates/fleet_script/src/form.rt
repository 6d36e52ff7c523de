//! The form `script`.

ghost use Rattle.std.specs.Prelude.{◌≡◌, ◌^◌, ◌-◌, ◌<◌, length};
ghost use Rattle.form_base.specs.Stops.{Answers};
ghost use Rattle.fleet_script.specs.Form.{script_form, stop_of};

use crate::refused::ScriptRefused;
use crate::script::script;
use form_base::{Fault, Report, Stop, done};
use std::alloc::Global;

/// What the script prints that the input is, or its first bad line.
///
/// The input has fewer than 4,294,967,295 bytes.
pub fn script_form(alloc: Global, input: &[u8]) -> Result<Report, Stop>
    requires { length input.now < 2 ^ 32 - 1 }
    // The answer is the one that is due, with its cause, or tells a sound journal; or memory ran
    // out.
    ensures { Answers script_form input.now result }
{
    match script(alloc, input) {
        Ok(text) => Ok(done(text)),
        Err(refused) => Err(stop_of(refused)),
    }
}

// Why a script isn't carried out, as the program says it.
fn stop_of(refused: ScriptRefused) -> Stop
    ensures { result ≡ stop_of refused }
{
    match refused {
        ScriptRefused::Bad(at) => Stop::Refused(Fault::Line(at)),
        ScriptRefused::NoMemory => Stop::NoMemory,
    }
}
