// The robots of a drill: where they start, and their missions.
ghost use Rattle.std.specs.Prelude.{◌≡◌, ◌*◌, ◌<◌, ◌≤◌, [], length, map, slice_set, IfOk, OnOk};
ghost use Rattle.fleet_model.specs.Lists.{numbers_below};
ghost use Rattle.scenario.specs.Scenarios.{legs_of};
ghost use Rattle.scenario_gen.specs.Draws.{after_draws};
ghost use Rattle.scenario_gen.specs.Generated.{after_mission, leg, mission, missions, start};

use crate::draws::Draws;
use crate::grid::Grid;
use fleet_base::numbers::{CellNo, RobotNo};
use fleet_base::path::{NoMemory, Path};
use scenario::missions::Missions;
use site_map::goal::Goal;
use std::alloc::Global;

// Where the robots start: in the first row, and the ones for which it has no column in row 3.
pub(crate) fn starts(alloc: Global, grid: Grid, robots: u32) -> Result<Path, NoMemory>
    requires { robots ≤ 2 * grid.width }
    ensures { IfOk result (λ starts. starts ≡ map (start grid.width) (numbers_below robots)) }
{
    let mut cells = Vec::new(alloc);
    for robot in 0..robots {
        cells.extend_from_slice(&[start(grid, robot)])?;
    }
    Ok(Path::from_vec(cells))
}

// Where a robot starts.
fn start(grid: Grid, robot: u32) -> CellNo
    requires { robot ≤ 2 * grid.width }
    ensures { result ≡ start grid.width robot }
{
    if robot < grid.width {
        CellNo(robot)
    } else {
        CellNo(3 * grid.width + (robot - grid.width))
    }
}

// The missions of so many robots, whose legs are drawn.
pub(crate) fn missions(
    alloc: Global,
    grid: Grid,
    robots: u32,
    draws: &mut Draws,
) -> Result<Missions, NoMemory>
    ensures { IfOk result (λ m. m ≡ missions (grid.width * grid.height) draws.old.number robots) }
{
    let mut missions = Missions::new(alloc, robots)?;
    for robot in 0..robots {
        add_mission(&mut missions, grid, RobotNo(robot), draws)?;
    }
    Ok(missions)
}

// Draws the mission of a robot that has none: the number of its legs, and then each leg.
fn add_mission(
    missions: &mut Missions,
    grid: Grid,
    robot: RobotNo,
    draws: &mut Draws,
) -> Result<(), NoMemory>
    requires known { robot.0 < length missions.old }
    requires none { legs_of missions.old robot.0 ≡ [] }
    ensures legs { OnOk result (missions.new ≡ slice_set missions.old robot.0 (mission (grid.width * grid.height) draws.old.number)) }
    ensures number { OnOk result (draws.new.number ≡ after_mission draws.old.number) }
{
    let legs = 1 + draws.draw(4);
    for _ in 0..legs {
        let goal = draw_leg(grid, draws);
        missions.add(robot, goal)?;
    }
    Ok(())
}

// Draws where a leg leads to.
fn draw_leg(grid: Grid, draws: &mut Draws) -> Goal
    ensures goal { result ≡ leg (grid.width * grid.height) draws.old.number }
    ensures number { draws.new.number ≡ after_draws 2 draws.old.number }
{
    if draws.draw(4) == 0 {
        Goal::Area(draws.draw(2))
    } else {
        Goal::Cell(CellNo(draws.draw(grid.cell_count())))
    }
}
