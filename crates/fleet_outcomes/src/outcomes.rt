//! How robots stand with their missions.

ghost use Rattle.std.specs.Prelude.{◌≡◌, ◌<◌, ◌==◌, ℕ, false, true, All, IfOk, None, Some, [], length};
ghost use Rattle.std.specs.List.{list_any};
ghost use Rattle.std.specs.Option.{is_some, option_map, option_to_list};
ghost use Rattle.fleet_base.specs.Lists.{robots_of};
ghost use Rattle.fleet_model.specs.States.{pending_of};
ghost use Rattle.mission_model.specs.Outcomes.{blocker_of, blockers_on, outcome_at as standing_at, outcome_of, outcomes_of};
ghost use Rattle.mission_model.specs.Policies.{detour_to, is_free, route_to as route_for};
ghost use Rattle.site_map.specs.Goals.{IsGoal};
ghost use Rattle.coordinator.specs.Books.{opening_of, state_of};
ghost use Rattle.robot_worker.specs.Legs.{leg_cells};
ghost use Rattle.fleet_outcomes.specs.Fleets.{HasMissions, missions_in};
ghost use Rattle.fleet_outcomes.specs.Standing.{IsAtRest, LeadsOn, found_by};

use crate::going::{goes_on, look_at, next_leg};
use coordinator::coordinator::Coordinator;
use fleet_base::answers::{PendingLook, ReplanRefused};
use fleet_base::numbers::RobotNo;
use fleet_base::path::NoMemory;
use fleet_base::robot_list::RobotList;
use mission_model::outcome::Outcome;
use robot_worker::routes::route_to;
use route_plan::goals::goal_set;
use scenario::missions::Missions;
use site_map::goal::Goal;
use std::alloc::Global;

/// How each robot stands, in order.
pub fn outcomes(
    alloc: Global,
    fleet: &Coordinator,
    missions: &Missions,
) -> Result<Vec<Outcome>, NoMemory>
    requires { HasMissions fleet.now missions.now }
    ensures { IfOk result (λ all. all.items ≡ outcomes_of (missions_in fleet.now missions.now) (opening_of fleet.now) fleet.now.journal) }
{
    let mut all = Vec::new(alloc);
    for number in 0..fleet.robots() {
        let one = outcome(alloc, fleet, missions, RobotNo(number))?;
        if all.push(one).is_err() {
            return Err(NoMemory);
        }
    }
    Ok(all)
}

/// How the robot stands: the first outcome that applies.
pub fn outcome(
    alloc: Global,
    fleet: &Coordinator,
    missions: &Missions,
    robot: RobotNo,
) -> Result<Outcome, NoMemory>
    requires missions { HasMissions fleet.now missions.now }
    requires known { robot.0 < length fleet.now.starts }
    ensures { IfOk result (λ outcome. outcome ≡ outcome_of (missions_in fleet.now missions.now) (opening_of fleet.now) fleet.now.journal robot.0) }
{
    let leg = next_leg(alloc, fleet, missions, robot)?;
    outcome_at(alloc, fleet, robot, leg)
}

// How the robot stands, where this is its next leg.
fn outcome_at(
    alloc: Global,
    fleet: &Coordinator,
    robot: RobotNo,
    leg: Option<Goal>,
) -> Result<Outcome, NoMemory>
    requires known { robot.0 < length fleet.now.starts }
    requires goal { All (IsGoal fleet.now.site) (option_to_list leg) }
    requires on { LeadsOn (state_of fleet.now).fleet robot.0 (leg_cells fleet.now.site leg) }
    ensures { IfOk result (λ outcome. outcome ≡ standing_at (state_of fleet.now) robot.0 (leg_cells fleet.now.site leg)) }
{
    let goes = goes_on(alloc, fleet, robot, leg)?;
    if goes {
        return Ok(Outcome::Active);
    }
    let look = look_at(fleet, robot);
    let moving = look.left != 0;
    if moving {
        return Ok(Outcome::Waiting);
    }
    match look.pending {
        PendingLook::Nothing => idle(alloc, fleet, robot, leg),
        PendingLook::Free => Ok(Outcome::Full),
        PendingLook::Blocked(_) => blocked(fleet, robot, leg),
    }
}

// How a robot at rest stands that has nothing pending.
fn idle(
    alloc: Global,
    fleet: &Coordinator,
    robot: RobotNo,
    leg: Option<Goal>,
) -> Result<Outcome, NoMemory>
    requires known { robot.0 < length fleet.now.starts }
    requires goal { All (IsGoal fleet.now.site) (option_to_list leg) }
    requires rests { IsAtRest (state_of fleet.now) robot.0 (leg_cells fleet.now.site leg) }
    requires pending { pending_of (state_of fleet.now) robot.0 ≡ None }
    ensures { IfOk result (λ outcome. outcome ≡ standing_at (state_of fleet.now) robot.0 (leg_cells fleet.now.site leg)) }
{
    let Some(goal) = leg else {
        return Ok(Outcome::Done);
    };
    if can_reach(alloc, fleet, robot, goal)? {
        Ok(Outcome::Full)
    } else {
        Ok(Outcome::Unreachable)
    }
}

// Whether a walk leads from the robot's end to the goal.
fn can_reach(
    alloc: Global,
    fleet: &Coordinator,
    robot: RobotNo,
    goal: Goal,
) -> Result<bool, NoMemory>
    requires known { robot.0 < length fleet.now.starts }
    requires goal { IsGoal fleet.now.site goal }
    ensures { IfOk result (λ yes. yes ≡ is_some (route_for (state_of fleet.now).fleet robot.0 (leg_cells fleet.now.site (Some goal)))) }
{
    let _kept = fleet.journal(); // its clauses: what every coordinator keeps
    let route = route_to(alloc, fleet.site(), fleet.end(robot), goal)?;
    Ok(route.is_some())
}

// How a robot at rest stands whose pending route is blocked.
fn blocked(fleet: &Coordinator, robot: RobotNo, leg: Option<Goal>) -> Result<Outcome, NoMemory>
    requires known { robot.0 < length fleet.now.starts }
    requires goal { All (IsGoal fleet.now.site) (option_to_list leg) }
    requires on { LeadsOn (state_of fleet.now).fleet robot.0 (leg_cells fleet.now.site leg) }
    requires rests { IsAtRest (state_of fleet.now) robot.0 (leg_cells fleet.now.site leg) }
    requires pending { is_some (pending_of (state_of fleet.now) robot.0) ≡ true }
    requires held { is_free (state_of fleet.now) robot.0 ≡ false }
    ensures { IfOk result (λ outcome. outcome ≡ standing_at (state_of fleet.now) robot.0 (leg_cells fleet.now.site leg)) }
{
    let _kept = fleet.journal(); // its clauses: what every coordinator keeps
    let cycle = fleet.cycle_of(robot);
    if cycle.is_empty() {
        let first = blocker_of(fleet, robot);
        return Ok(Outcome::Behind(blockers_from(fleet, first)));
    }
    let leads_round = has_detour(fleet, robot, leg)?;
    if leads_round {
        return Ok(Outcome::Full);
    }
    Ok(Outcome::InCycle(cycle))
}

// Whether there is a detour of the robot, which has a route pending, to the goal of the leg.
fn has_detour(fleet: &Coordinator, robot: RobotNo, leg: Option<Goal>) -> Result<bool, NoMemory>
    requires known { robot.0 < length fleet.now.starts }
    requires goal { All (IsGoal fleet.now.site) (option_to_list leg) }
    requires on { LeadsOn (state_of fleet.now).fleet robot.0 (leg_cells fleet.now.site leg) }
    requires pending { is_some (pending_of (state_of fleet.now) robot.0) ≡ true }
    ensures { IfOk result (λ yes. yes ≡ is_some (detour_to (state_of fleet.now).fleet robot.0 (leg_cells fleet.now.site leg))) }
{
    let Some(goal) = leg else {
        return Ok(false);
    };
    let _kept = fleet.journal(); // its clauses: what every coordinator keeps
    is_found(fleet.detour(robot, &goal_set(fleet.site(), goal)).err())
}

// Whether there is a detour, by why none would be taken, where it is refused.
fn is_found(refused: Option<ReplanRefused>) -> Result<bool, NoMemory>
    ensures { result ≡ found_by refused }
{
    match refused {
        None => Ok(true),
        Some(ReplanRefused::Full) => Ok(true),
        Some(ReplanRefused::NoMemory) => Err(NoMemory),
        Some(ReplanRefused::UnknownRobot) => Ok(false),
        Some(ReplanRefused::NoPending) => Ok(false),
        Some(ReplanRefused::AtGoal) => Ok(false),
        Some(ReplanRefused::NoDetour) => Ok(false),
    }
}

// The robots that come one behind the other from the first on, where there is one: each is followed
// by the robot of its own least blocker, until one has none or the next one stands in the list
// already.
fn blockers_from(fleet: &Coordinator, first: Option<RobotNo>) -> RobotList
    requires { (q : ℕ) → option_map (λ p. p.0) first ≡ Some q → q < length fleet.now.starts }
    ensures { result ≡ robots_of (blockers_on (state_of fleet.now) (length (state_of fleet.now).fleet.starts) [] (option_map (λ p. p.0) first)) }
{
    let mut robots = RobotList::new();
    let mut next = first;
    for _ in 0..fleet.robots() {
        let Some(robot) = next else {
            return robots;
        };
        if is_in(&robots, robot) {
            return robots;
        }
        robots.push(robot);
        next = blocker_of(fleet, robot);
    }
    robots
}

// The robot of the least blocker of a robot's pending route.
fn blocker_of(fleet: &Coordinator, robot: RobotNo) -> Option<RobotNo>
    requires { robot.0 < length fleet.now.starts }
    ensures { option_map (λ q. q.0) result ≡ blocker_of (state_of fleet.now) robot.0 }
{
    match look_at(fleet, robot).pending {
        PendingLook::Blocked(block) => Some(block.by),
        PendingLook::Free => None,
        PendingLook::Nothing => None,
    }
}

// Whether the robot is one of these.
fn is_in(robots: &RobotList, robot: RobotNo) -> bool
    ensures { result ≡ list_any (λ q. q.0 == robot.0) robots.now }
{
    for place in 0..robots.len() {
        let Some(other) = robots.get(place) else {
            return false;
        };
        if other == robot {
            return true;
        }
    }
    false
}
