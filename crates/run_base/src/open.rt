//! Opening a scenario.

ghost use Rattle.std.specs.Prelude.{◌≡◌, IfOk, OnOk};
ghost use Rattle.scenario.specs.Scenarios.{IsScenario};
ghost use Rattle.run_base.specs.Openings.{opened};

use coordinator::coordinator::Coordinator;
use fleet_base::limits::MAX_CAP;
use fleet_base::path::NoMemory;
use fleet_names::names::Names;
use scenario::scenario::{Parts, Scenario};
use std::alloc::Global;

/// A coordinator, and the names of what it speaks of.
#[derive(Drop)]
pub struct Opened {
    /// The names of the cells, crossings, areas and robots.
    pub names: Names,
    /// The coordinator.
    pub fleet: Coordinator,
}

/// The coordinator of a scenario's robots in their starts, with the cap of the programs, and the
/// scenario's names.
///
/// It is refused only where no memory is left.
pub fn open(alloc: Global, scenario: Scenario) -> Result<Opened, NoMemory>
    ensures names { IfOk result (λ run. run.names ≡ scenario.names) }
    ensures fleet { IfOk result (λ run. run.fleet ≡ opened scenario) }
    // What every scenario keeps.
    ensures kept { OnOk result (IsScenario scenario) }
{
    let Parts {
        site,
        names,
        starts,
        ..
    } = scenario.into_parts();
    // The starts of a scenario are some and don't conflict, so what is refused lacks memory.
    match Coordinator::new(alloc, site, starts.cells(), MAX_CAP) {
        Ok(fleet) => Ok(Opened { names, fleet }),
        Err(_) => Err(NoMemory),
    }
}
