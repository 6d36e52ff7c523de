//! The serial run.

ghost use Rattle.std.specs.Prelude.{◌≡◌, ◌<◌, IfOk, OnErr, OnOk, length, slice_set};
ghost use Rattle.coordinator.specs.Books.{with_entries};
ghost use Rattle.fleet_outcomes.specs.Fleets.{HasMissions};
ghost use Rattle.fleet_sim.specs.Drives.{serial_in, Advanced, AreCounts, HasDriven};

use crate::going::go_on;
use coordinator::coordinator::Coordinator;
use fleet_base::numbers::RobotNo;
use fleet_base::path::NoMemory;
use fleet_outcomes::served::served;
use robot_worker::serving::{leg_at, serve_on};
use scenario::missions::Missions;
use std::alloc::Global;

/// Continues the run serially: each call is the policy act of the least robot that can go on, until
/// no robot can. It waits for nobody and always ends. Where no memory is left, the calls so far
/// stand.
#[tactic(none)]
pub fn drive(alloc: Global, fleet: &mut Coordinator, missions: &Missions) -> Result<(), NoMemory>
    requires { HasMissions fleet.old missions.now }
    ensures serial { OnOk result (fleet.new ≡ with_entries fleet.old (serial_in fleet.old missions.now)) }
    ensures begun { OnErr result (HasDriven missions.now fleet.old fleet.new) }
{
    let _opened = fleet.journal(); // its clauses: what every coordinator keeps
    let mut counts = counts_of(alloc, fleet, missions)?;
    'serial: loop {
        let moved = advance(alloc, fleet, missions, &mut counts)?;
        let _kept = fleet.journal(); // there are no more entries than a run may come to
        if !moved {
            return Ok(());
        }
    }
}

// How many legs each robot has served.
fn counts_of(alloc: Global, fleet: &Coordinator, missions: &Missions) -> Result<Vec<u32>, NoMemory>
    requires { HasMissions fleet.now missions.now }
    ensures { IfOk result (λ counts. AreCounts fleet.now missions.now counts.items) }
{
    let mut counts = Vec::new(alloc);
    for robot in 0..fleet.robots() {
        let count = served(alloc, fleet, missions, RobotNo(robot))?;
        if counts.push(count).is_err() {
            return Err(NoMemory);
        }
    }
    Ok(counts)
}

// Makes the policy act of the least robot that can go on, and says whether there was one.
#[tactic(none)]
fn advance(
    alloc: Global,
    fleet: &mut Coordinator,
    missions: &Missions,
    counts: &mut Vec<u32>,
) -> Result<bool, NoMemory>
    requires missions { HasMissions fleet.old missions.now }
    requires counts { AreCounts fleet.old missions.now counts.old.items }
    ensures advanced { IfOk result (Advanced missions.now fleet.old fleet.new) }
    ensures counts { OnOk result (AreCounts fleet.new missions.now counts.new.items) }
    ensures err { OnErr result (fleet.new ≡ fleet.old) }
{
    let _kept = fleet.journal(); // its clauses: what every coordinator keeps
    for number in 0..fleet.robots() {
        let robot = RobotNo(number);
        let legs = missions.legs(robot);
        let count = counts[number as usize];
        let leg = leg_at(legs, count);
        let moved = go_on(alloc, fleet, robot, leg)?;
        if moved {
            let served = serve_on(fleet.site(), legs, count, fleet.end(robot));
            set_count(counts, number, served);
            return Ok(true);
        }
    }
    Ok(false)
}

// Puts the count of the robot with this number into its place.
fn set_count(counts: &mut Vec<u32>, number: u32, count: u32)
    requires { number < length counts.old.items }
    ensures { counts.new.items ≡ slice_set counts.old.items number count }
{
    counts[number as usize] = count;
}
