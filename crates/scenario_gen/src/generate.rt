//! The scenario of a number.

ghost use Rattle.std.specs.Prelude.{◌≡◌, IfOk};
ghost use Rattle.scenario_gen.specs.Generated.{generated};

use crate::draws::Draws;
use crate::grid::Grid;
use crate::missions::{missions, starts};
use crate::naming::names;
use crate::sites::build_site;
use fleet_base::path::NoMemory;
use scenario::scenario::{Parts, Scenario};
use std::alloc::Global;

/// The scenario of a number: a grid of 8 to 16 rows and columns, with 8 to 16 robots of 1 to 4 legs
/// each. All that varies is drawn from the number.
pub fn generate(alloc: Global, number: u32) -> Result<Scenario, NoMemory>
    ensures { IfOk result (λ scenario. scenario ≡ generated number) }
{
    let mut draws = Draws {
        number: u64::from(number),
    };
    let width = 8 + 2 * draws.draw(5);
    let height = 8 + 2 * draws.draw(5);
    let grid = Grid { width, height };
    let site = build_site(alloc, grid, &mut draws)?;
    let robots = 8 + draws.draw(9);
    let starts = starts(alloc, grid, robots)?;
    let missions = missions(alloc, grid, robots, &mut draws)?;
    let names = names(alloc, site.cell_count(), site.crossing_count(), robots)?;
    Ok(Scenario::of_parts(Parts {
        site,
        names,
        starts,
        missions,
    }))
}
