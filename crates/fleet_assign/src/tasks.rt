// The tasks of a scenario.
ghost use Rattle.std.specs.Prelude.{◌≡◌, All, IfOk, IfSome, slice_get};
ghost use Rattle.site_map.specs.Built.{BuiltSite};
ghost use Rattle.site_map.specs.Goals.{IsGoal};
ghost use Rattle.fleet_assign.specs.Tasks.{tasks_of};

use fleet_base::numbers::RobotNo;
use scenario::scenario::Scenario;
use site_map::goal::Goal;
use std::alloc::{AllocError, Global};

// The first leg of each robot that has one, in order of robot.
pub(crate) fn tasks_of(alloc: Global, scenario: &Scenario) -> Result<Vec<Goal>, AllocError>
    ensures are { IfOk result (λ tasks. tasks.items ≡ tasks_of scenario.now.missions) }
    ensures known { IfOk result (λ tasks. All (IsGoal scenario.now.site) tasks.items) }
{
    let count = scenario.starts().len() as u32;
    let missions = scenario.missions();
    let mut tasks = Vec::new(alloc);
    for robot in 0..count {
        if let Some(goal) = missions.legs(RobotNo(robot)).first() {
            tasks.push(*goal)?;
        }
    }
    Ok(tasks)
}

// The task of a column. None where the column is idle.
pub(crate) fn task_at(tasks: &[Goal], column: u32) -> Option<Goal>
    ensures is { result ≡ slice_get tasks.now column }
    ensures known { (site : BuiltSite) → All (IsGoal site) tasks.now → IfSome result (IsGoal site) }
{
    tasks.get(column as usize).copied()
}
