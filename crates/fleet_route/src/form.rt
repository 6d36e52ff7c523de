//! The form `route`.

ghost use Rattle.std.specs.Prelude.{◌≡◌, ◌^◌, ◌-◌, ◌<◌, length};
ghost use Rattle.form_base.specs.Stops.{Answers};
ghost use Rattle.fleet_route.specs.Form.{route_form, stop_of};

use crate::refused::{Refusal, Untold};
use crate::route::route;
use form_base::{Fault, Report, Stop, done};
use std::alloc::Global;

/// The text of the least route between what the words name in the scenario that the input is, or
/// its first bad line, or which of the words names nothing fitting.
///
/// The input has fewer than 4,294,967,295 bytes.
pub fn route_form(alloc: Global, from: &str, to: &str, input: &[u8]) -> Result<Report, Stop>
    requires { length input.now < 2 ^ 32 - 1 }
    // The answer is the one that is due, with its cause; or memory ran out.
    ensures { Answers (route_form from.now to.now) input.now result }
{
    match route(alloc, input, from.as_bytes(), to.as_bytes()) {
        Ok(text) => Ok(done(text)),
        Err(untold) => Err(stop_of(untold)),
    }
}

// Why no route is told, as the program says it.
fn stop_of(untold: Untold) -> Stop
    ensures { result ≡ stop_of untold }
{
    match untold {
        Untold::Refused(Refusal::Line(at)) => Stop::Refused(Fault::Line(at)),
        Untold::Refused(Refusal::UnknownFrom) => Stop::Refused(Fault::UnknownFrom),
        Untold::Refused(Refusal::UnknownTo) => Stop::Refused(Fault::UnknownTo),
        Untold::NoMemory => Stop::NoMemory,
    }
}
