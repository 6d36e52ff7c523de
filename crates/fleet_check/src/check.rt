//! The canonical text of a scenario.

ghost use Rattle.std.specs.Prelude.{◌≡◌, ◌^◌, ◌-◌, ◌<◌, length};
ghost use Rattle.form_base.specs.Stops.{Answers};
ghost use Rattle.fleet_check.specs.Check.{check_form, stop_of};

use form_base::{Fault, Report, Stop, done};
use scenario::print::print_scenario;
use scenario_reader::read::read_scenario;
use scenario_reader::stop::ReadRefused;
use std::alloc::Global;

/// The canonical text of the scenario that the input is, or its first bad line.
///
/// The input has fewer than 4,294,967,295 bytes.
pub fn check(alloc: Global, input: &[u8]) -> Result<Report, Stop>
    requires { length input.now < 2 ^ 32 - 1 }
    // The answer is the one that is due, with its cause; or memory ran out.
    ensures { Answers check_form input.now result }
{
    match read_scenario(alloc, input) {
        Ok(scenario) => Ok(done(print_scenario(alloc, &scenario)?)),
        Err(refused) => Err(stop_of(refused)),
    }
}

// What a refusal of the reader is for the program.
fn stop_of(refused: ReadRefused) -> Stop
    ensures { result ≡ stop_of refused }
{
    match refused {
        ReadRefused::Bad(at) => Stop::Refused(Fault::Line(at)),
        ReadRefused::NoMemory => Stop::NoMemory,
    }
}
