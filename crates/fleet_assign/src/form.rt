//! The form `assign`.

ghost use Rattle.std.specs.Prelude.{◌≡◌, ◌^◌, ◌-◌, ◌<◌, length};
ghost use Rattle.form_base.specs.Stops.{Answers};
ghost use Rattle.fleet_assign.specs.Form.{assign_form, stop_of};

use crate::telling::assign_text;
use form_base::{Fault, Report, Stop, done};
use scenario_reader::read::read_scenario;
use scenario_reader::stop::ReadRefused;
use std::alloc::Global;

/// The text of the assignment of the scenario that the input is, or its first bad line.
///
/// The input has fewer than 4,294,967,295 bytes.
pub fn assign_form(alloc: Global, input: &[u8]) -> Result<Report, Stop>
    requires { length input.now < 2 ^ 32 - 1 }
    // The answer is the one that is due, with its cause; or memory ran out.
    ensures { Answers assign_form input.now result }
{
    match read_scenario(alloc, input) {
        Ok(scenario) => Ok(done(assign_text(alloc, &scenario)?)),
        Err(refused) => Err(stop_of(refused)),
    }
}

// What a refusal of the reader is for the program.
fn stop_of(refused: ReadRefused) -> Stop
    ensures { result ≡ stop_of refused }
{
    match refused {
        ReadRefused::Bad(at) => Stop::Refused(Fault::Line(at)),
        ReadRefused::NoMemory => Stop::NoMemory,
    }
}
