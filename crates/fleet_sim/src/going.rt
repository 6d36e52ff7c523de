//! How one robot goes on.

ghost use Rattle.std.specs.Prelude.{◌≡◌, ◌<◌, All, IfOk, OnErr, length};
ghost use Rattle.std.specs.Option.{option_to_list};
ghost use Rattle.coordinator.specs.Books.{state_of};
ghost use Rattle.fleet_calls.specs.Calls.{call_of, HasGoal};
ghost use Rattle.fleet_model.specs.Calls.{turn};
ghost use Rattle.fleet_sim.specs.Drives.{WentOn};
ghost use Rattle.mission_model.specs.Policies.{policy_entry};
ghost use Rattle.robot_worker.specs.Legs.{leg_cells};
ghost use Rattle.site_map.specs.Goals.{IsGoal};

use coordinator::coordinator::Coordinator;
use fleet_base::numbers::RobotNo;
use fleet_base::path::NoMemory;
use fleet_calls::request::Request;
use fleet_outcomes::going::policy_request;
use site_map::goal::Goal;
use std::alloc::Global;

// Makes the policy act of a robot, whose next leg this is, where there is an act and it is
// accepted; and says whether it was.
pub(crate) fn go_on(
    alloc: Global,
    fleet: &mut Coordinator,
    robot: RobotNo,
    leg: Option<Goal>,
) -> Result<bool, NoMemory>
    requires known { robot.0 < length fleet.old.starts }
    requires goal { All (IsGoal fleet.old.site) (option_to_list leg) }
    ensures went { IfOk result (WentOn (policy_entry (state_of fleet.old) robot.0 (leg_cells fleet.old.site leg)) fleet.old fleet.new) }
    ensures err { OnErr result (fleet.new ≡ fleet.old) }
{
    let asked = policy_request(alloc, fleet, robot, leg)?;
    match asked {
        Some(request) => make(fleet, robot, &request),
        None => Ok(false),
    }
}

// Makes the call that a robot asks for, and says whether it was accepted: then the journal grew.
fn make(fleet: &mut Coordinator, robot: RobotNo, request: &Request) -> Result<bool, NoMemory>
    requires { HasGoal fleet.old.site request.now }
    ensures went { IfOk result (WentOn (turn (state_of fleet.old) robot.0 (call_of fleet.old.site request.now)).entry fleet.old fleet.new) }
    ensures err { OnErr result (fleet.new ≡ fleet.old) }
{
    let before = entry_count(fleet);
    match fleet.call(robot, request) {
        Ok(_) => {
            let after = entry_count(fleet);
            Ok(before < after)
        }
        Err(_) => Err(NoMemory),
    }
}

// How many entries the journal has.
fn entry_count(fleet: &Coordinator) -> usize
    ensures { result ≡ length fleet.now.journal }
{
    fleet.journal().len()
}
