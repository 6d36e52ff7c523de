//! Whether a robot can go on, and by which call.

ghost use Rattle.std.specs.Prelude.{◌≡◌, ◌<◌, All, IfOk, Some, length};
ghost use Rattle.std.specs.Option.{is_some, option_map, option_to_list};
ghost use Rattle.fleet_calls.specs.Calls.{call_of, HasGoal};
ghost use Rattle.fleet_model.specs.Calls.{look_of, Propose};
ghost use Rattle.mission_model.specs.Policies.{can_go_on, policy_act, policy_entry, route_to as route_for};
ghost use Rattle.mission_model.specs.Stops.{legs_of, next_leg};
ghost use Rattle.site_map.specs.Goals.{IsGoal};
ghost use Rattle.coordinator.specs.Books.{opening_of, state_of};
ghost use Rattle.robot_worker.specs.Legs.{leg_cells};
ghost use Rattle.fleet_outcomes.specs.Fleets.{HasMissions, missions_in};
ghost use Rattle.fleet_outcomes.specs.Standing.{LeadsOn};

use crate::served::served;
use coordinator::coordinator::Coordinator;
use fleet_base::answers::Look;
use fleet_base::numbers::RobotNo;
use fleet_base::path::NoMemory;
use fleet_calls::request::Request;
use mission_model::doing::Doing;
use robot_worker::policy::decide;
use robot_worker::routes::route_to;
use robot_worker::serving::leg_at;
use scenario::missions::Missions;
use site_map::goal::Goal;
use std::alloc::Global;

/// Whether the policy gives the robot an act that the coordinator would accept.
pub fn can_go_on(
    alloc: Global,
    fleet: &Coordinator,
    missions: &Missions,
    robot: RobotNo,
) -> Result<bool, NoMemory>
    requires missions { HasMissions fleet.now missions.now }
    requires known { robot.0 < length fleet.now.starts }
    ensures { IfOk result (λ yes. yes ≡ can_go_on (missions_in fleet.now missions.now) (opening_of fleet.now) fleet.now.journal robot.0) }
{
    let leg = next_leg(alloc, fleet, missions, robot)?;
    goes_on(alloc, fleet, robot, leg)
}

/// The next leg of the robot, where one is left.
pub fn next_leg(
    alloc: Global,
    fleet: &Coordinator,
    missions: &Missions,
    robot: RobotNo,
) -> Result<Option<Goal>, NoMemory>
    requires missions { HasMissions fleet.now missions.now }
    requires known { robot.0 < length fleet.now.starts }
    ensures leg { IfOk result (λ leg. leg_cells fleet.now.site leg ≡ next_leg (legs_of (missions_in fleet.now missions.now) robot.0) (opening_of fleet.now) fleet.now.journal robot.0) }
    ensures goal { IfOk result (λ leg. All (IsGoal fleet.now.site) (option_to_list leg)) }
    // At the robot's end no leg is left to be served.
    ensures on { IfOk result (λ leg. LeadsOn (state_of fleet.now).fleet robot.0 (leg_cells fleet.now.site leg)) }
{
    let _kept = fleet.journal(); // its clauses: what every coordinator keeps
    let count = served(alloc, fleet, missions, robot)?;
    Ok(leg_at(missions.legs(robot), count))
}

/// Whether the robot can go on, where this is its next leg.
pub fn goes_on(
    alloc: Global,
    fleet: &Coordinator,
    robot: RobotNo,
    leg: Option<Goal>,
) -> Result<bool, NoMemory>
    requires known { robot.0 < length fleet.now.starts }
    requires goal { All (IsGoal fleet.now.site) (option_to_list leg) }
    ensures { IfOk result (λ yes. yes ≡ is_some (policy_entry (state_of fleet.now) robot.0 (leg_cells fleet.now.site leg))) }
{
    match policy_request(alloc, fleet, robot, leg)? {
        Some(request) => fleet.accepts(robot, &request),
        None => Ok(false),
    }
}

/// The call by which the robot does what the policy picks, where this is its next leg. None where it
/// is to rest, or no route leads to its goal.
pub fn policy_request(
    alloc: Global,
    fleet: &Coordinator,
    robot: RobotNo,
    leg: Option<Goal>,
) -> Result<Option<Request>, NoMemory>
    requires known { robot.0 < length fleet.now.starts }
    requires goal { All (IsGoal fleet.now.site) (option_to_list leg) }
    ensures act { IfOk result (λ request. option_map (call_of fleet.now.site) request ≡ policy_act (state_of fleet.now) robot.0 (leg_cells fleet.now.site leg)) }
    ensures goal { IfOk result (λ request. All (HasGoal fleet.now.site) (option_to_list request)) }
{
    let look = look_at(fleet, robot);
    match decide(&look, leg.is_some()) {
        Doing::Report(event) => Ok(Some(Request::Report(event))),
        Doing::Retry => Ok(Some(Request::Retry)),
        Doing::Replan => match leg {
            Some(goal) => Ok(Some(Request::Replan(goal))),
            None => Ok(None),
        },
        Doing::Propose => match leg {
            Some(goal) => proposal(alloc, fleet, robot, goal),
            None => Ok(None),
        },
        Doing::Rest => Ok(None),
    }
}

// The proposal of the least route to the goal, where one leads there.
fn proposal(
    alloc: Global,
    fleet: &Coordinator,
    robot: RobotNo,
    goal: Goal,
) -> Result<Option<Request>, NoMemory>
    requires known { robot.0 < length fleet.now.starts }
    requires goal { IsGoal fleet.now.site goal }
    ensures act { IfOk result (λ request. option_map (call_of fleet.now.site) request ≡ option_map (λ route. Propose route) (route_for (state_of fleet.now).fleet robot.0 (leg_cells fleet.now.site (Some goal)))) }
    ensures goal { IfOk result (λ request. All (HasGoal fleet.now.site) (option_to_list request)) }
{
    let _kept = fleet.journal(); // its clauses: what every coordinator keeps
    match route_to(alloc, fleet.site(), fleet.end(robot), goal)? {
        Some(route) => Ok(Some(Request::Propose(route))),
        None => Ok(None),
    }
}

// What the robot sees.
pub(crate) fn look_at(fleet: &Coordinator, robot: RobotNo) -> Look
    requires { robot.0 < length fleet.now.starts }
    ensures { result ≡ look_of (state_of fleet.now) robot.0 }
{
    let _kept = fleet.journal(); // its clauses: what every coordinator keeps
    match fleet.look(robot) {
        Ok(look) => look,
        Err(_) => unreachable!(),
    }
}
