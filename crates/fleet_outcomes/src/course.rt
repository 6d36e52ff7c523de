//! The course of a robot: its stops, as its journal is read.

ghost use Rattle.std.specs.Prelude.{◌≡◌, ◌<◌, ◌≤◌, ◌^◌, None, Some, OnOk, IfOk, length, slice_get};
ghost use Rattle.fleet_model.specs.States.{pending_of};
ghost use Rattle.plan_events.specs.Shapes.{shape_cause};
ghost use Rattle.site_map.specs.Claims.{site_of};
ghost use Rattle.coordinator.specs.Books.{opening_of};
ghost use Rattle.fleet_base.specs.declared.numbers.CellNo.{CellNo};
ghost use Rattle.fleet_outcomes.specs.Courses.{course_after, cut, first_course, grown, stopping, way_of, way_pending, MayFollow};

use crate::stops::{Stop, Way};
use coordinator::coordinator::Coordinator;
use fleet_base::entries::Act;
use fleet_base::numbers::{CellNo, RobotNo};
use fleet_base::path::NoMemory;
use plan_events::shape::check_shape;
use site_map::site::Site;
use std::alloc::Global;
use std::marker::Model;

// The stops of a robot, the number of its events in the plan, and its pending route.
#[derive(Drop)]
pub(crate) struct Course {
    pub(crate) stops: Vec<Stop>,
    pub(crate) events: u64,
    pub(crate) pending: Way,
}

impl Model for Course {
    ghost use Rattle.fleet_outcomes.specs.Courses.{Course as PlainCourse};

    ghost Value = { PlainCourse };

    ghost view = { λ c. record { stops = c.stops.items; events = c.events; pending = c.pending } };
}

impl Course {
    // The course of a robot behind an empty journal.
    pub(crate) fn new(
        alloc: Global,
        fleet: &Coordinator,
        robot: RobotNo,
    ) -> Result<Course, NoMemory>
        requires { robot.0 < length fleet.now.starts }
        ensures { IfOk result (λ course. (start : CellNo) → slice_get fleet.now.starts robot.0 ≡ Some start
            → course ≡ first_course start (way_pending (site_of fleet.now.site) (pending_of (opening_of fleet.now) robot.0))) }
    {
        let start = Stop {
            events: 0,
            cell: fleet.start(robot),
        };
        Ok(Course {
            stops: Vec::from_slice(alloc, &[start])?,
            events: 0,
            pending: first_pending(fleet, robot),
        })
    }

    // What an act of the robot's own does to its course. Where no memory is left, the course is
    // given up.
    pub(crate) fn follow(&mut self, site: &Site, act: &Act) -> Result<(), NoMemory>
        requires may { MayFollow (site_of site.now) act.now self.old }
        requires few { self.old.events ≤ 2 ^ 62 }
        ensures { OnOk result (self.new ≡ course_after (site_of site.now) act.now self.old) }
    {
        match act {
            Act::Merged { route, .. } => self.grow(way_of(site, route.cells())),
            Act::Replanned { route, .. } => self.grow(way_of(site, route.cells())),
            Act::Retried { .. } => self.grow(self.pending),
            Act::Deferred { route, .. } => {
                self.pending = way_of(site, route.cells());
                Ok(())
            }
            Act::Withdrawn { removed, end } => self.cut(*removed, *end),
            Act::Canceled => Ok(()),
            Act::Reported { .. } => Ok(()),
        }
    }

    // With the route in the plan, and a stop behind it.
    fn grow(&mut self, way: Way) -> Result<(), NoMemory>
        requires { self.old.events ≤ 2 ^ 62 }
        ensures { OnOk result (self.new ≡ grown way self.old) }
    {
        self.events += u64::from(way.events);
        self.stop(way.end)
    }

    // Without the last of the events, so many, and without the stops behind those that are left.
    fn cut(&mut self, removed: u32, end: CellNo) -> Result<(), NoMemory>
        requires { removed ≤ self.old.events }
        ensures { OnOk result (self.new ≡ cut removed end self.old) }
    {
        let left = self.events - u64::from(removed);
        self.events = left;
        self.stops.retain(|stop| stop.events <= left);
        self.stop(end)
    }

    // One more stop, in this cell, behind all events.
    fn stop(&mut self, cell: CellNo) -> Result<(), NoMemory>
        ensures { OnOk result (self.new ≡ stopping self.old self.old.events cell self.old.stops) }
    {
        let stop = Stop {
            events: self.events,
            cell,
        };
        Ok(self.stops.extend_from_slice(&[stop])?)
    }
}

// How many events a route has, and where it ends.
fn way_of(site: &Site, cells: &[CellNo]) -> Way
    requires { shape_cause (site_of site.now) cells.now ≡ None }
    ensures { result ≡ way_of (site_of site.now) cells.now }
{
    match check_shape(site, cells) {
        Ok(events) => Way {
            events,
            end: cells[cells.len() - 1],
        },
        Err(_) => unreachable!(),
    }
}

// The route that the robot has pending at the opening.
fn first_pending(fleet: &Coordinator, robot: RobotNo) -> Way
    requires { robot.0 < length fleet.now.starts }
    ensures { result ≡ way_pending (site_of fleet.now.site) (pending_of (opening_of fleet.now) robot.0) }
{
    let _kept = fleet.journal(); // its clauses: the opening's pending routes are legal
    match &fleet.opening().pending[robot.0 as usize] {
        Some(route) => way_of(fleet.site(), route.cells()),
        None => Way {
            events: 0,
            end: CellNo(0),
        },
    }
}
