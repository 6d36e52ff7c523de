//! How many legs a robot has served.

ghost use Rattle.std.specs.Prelude.{◌≡◌, ◌<◌, ◌≤◌, length, All, IfOk};
ghost use Rattle.fleet_base.specs.declared.limits.TheConstants.{MAX_LEGS};
ghost use Rattle.fleet_model.specs.Plans.{own};
ghost use Rattle.mission_model.specs.Stops.{legs_of, served as served_at, stops_of};
ghost use Rattle.site_map.specs.Goals.{IsGoal};
ghost use Rattle.coordinator.specs.Books.{opening_of, state_of};
ghost use Rattle.robot_worker.specs.Legs.{plain_legs};
ghost use Rattle.fleet_outcomes.specs.Courses.{AreStops, kept_along};
ghost use Rattle.fleet_outcomes.specs.Fleets.{HasMissions, missions_in};

use crate::course::Course;
use crate::stops::Stop;
use coordinator::coordinator::Coordinator;
use fleet_base::numbers::RobotNo;
use fleet_base::path::NoMemory;
use robot_worker::serving::serve_on;
use scenario::missions::Missions;
use site_map::goal::Goal;
use site_map::site::Site;
use std::alloc::Global;

/// How many of its legs the robot has served: those that are served in turn at its stops, by the
/// journal.
pub fn served(
    alloc: Global,
    fleet: &Coordinator,
    missions: &Missions,
    robot: RobotNo,
) -> Result<u32, NoMemory>
    requires missions { HasMissions fleet.now missions.now }
    requires known { robot.0 < length fleet.now.starts }
    ensures { IfOk result (λ count. count ≡ served_at (legs_of (missions_in fleet.now missions.now) robot.0) (opening_of fleet.now) fleet.now.journal robot.0) }
{
    let course = course_of(alloc, fleet, robot)?;
    Ok(serve_along(fleet.site(), missions.legs(robot), &course.stops))
}

// The course of the robot behind the journal.
fn course_of(alloc: Global, fleet: &Coordinator, robot: RobotNo) -> Result<Course, NoMemory>
    requires { robot.0 < length fleet.now.starts }
    ensures { IfOk result (λ course. AreStops (own robot.0 (state_of fleet.now).fleet.plan) (stops_of (opening_of fleet.now) fleet.now.journal robot.0) course.stops) }
{
    let mut course = Course::new(alloc, fleet, robot)?;
    for entry in fleet.journal() {
        if entry.robot == robot {
            course.follow(fleet.site(), &entry.act)?;
        }
    }
    Ok(course)
}

// Serves on at each of these stops, in order.
fn serve_along(site: &Site, legs: &[Goal], stops: &[Stop]) -> u32
    requires few { length legs.now ≤ MAX_LEGS }
    requires goals { All (IsGoal site.now) legs.now }
    ensures { result ≡ kept_along (plain_legs site.now legs.now) 0 stops.now }
{
    let mut count = 0;
    for stop in stops {
        count = serve_on(site, legs, count, stop.cell);
    }
    count
}
