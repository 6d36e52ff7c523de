//! Both graphs, with the same steps behind them.

ghost use Rattle.std.specs.Prelude.{◌≡◌, ◌<◌, ◌≤◌, ◌+◌, ◌^◌, length, IfOk, IsTrue};
ghost use Rattle.fleet_model.specs.Plans.{own};
ghost use Rattle.event_graph.specs.Graphs.{HasNumber, IsGraph, IsUnawaited, tail_of};
ghost use Rattle.compare_graphs.specs.Pairs.{IsPair};

use crate::fitting::are_fit;
use event_graph::graph::EventGraph;
use fleet_base::limits::{MAX_CLAIMS, MAX_ROBOTS};
use fleet_base::numbers::{ClaimGroup, EventNo, Kind, RobotNo};
use fleet_base::path::NoMemory;
use plain_graph::graph::PlainGraph;
use std::alloc::Global;

/// Both graphs, and how many robots and claims they have.
#[derive(Drop)]
pub(crate) struct Pair {
    pub(crate) robots: u32,
    pub(crate) claims: u32,
    pub(crate) fast: EventGraph,
    pub(crate) plain: PlainGraph,
}

impl Pair {
    /// Both graphs of so many robots and of claims with these groups, without an event.
    pub(crate) fn new(alloc: Global, robots: u32, groups: &[ClaimGroup]) -> Result<Pair, NoMemory>
        requires some { 0 < robots }
        requires robots { robots ≤ MAX_ROBOTS }
        requires claims { length groups.now ≤ MAX_CLAIMS }
        ensures { IfOk result IsPair }
    {
        Ok(Pair {
            robots,
            claims: groups.len() as u32,
            fast: EventGraph::new(alloc, robots, groups, EventNo(1))?,
            plain: PlainGraph::new(alloc, robots, groups, EventNo(1))?,
        })
    }

    /// Appends what the robot does, where it fits. Answers whether both graphs number it alike.
    pub(crate) fn append(&mut self, robot: RobotNo, kinds: &[Kind]) -> Result<bool, NoMemory>
        requires pair { IsPair self.old }
        requires robot { robot.0 < self.old.robots }
        ensures { IsPair self.new }
    {
        if !are_fit(self.claims, kinds) {
            return Ok(true);
        }
        if !self.has_numbers(kinds.len()) {
            return Ok(true);
        }
        self.fast.reserve(kinds)?;
        self.plain.reserve(kinds)?;
        let fast = self.fast.append(robot, kinds);
        let plain = self.plain.append(robot, kinds);
        Ok(fast == plain)
    }

    // Whether so many events more can be numbered and counted. What the plain graph keeps is told too.
    fn has_numbers(&self, more: usize) -> bool
        ensures number { IsTrue result → self.now.plain.next < 10 ^ 15 }
        ensures few { IsTrue result → length self.now.plain.events + more < 2 ^ 32 }
        ensures graph { IsGraph self.now.plain.robots self.now.plain.groups self.now.plain.events
            self.now.plain.next }
    {
        let kept = self.plain.kept();
        more <= 1_000 && kept <= 1_000_000 && self.plain.next_number().0 <= 1_000_000_000
    }

    /// Finishes the robot's next event, where there is one that is ready. Answers whether it was.
    pub(crate) fn finish(&mut self, robot: RobotNo) -> bool
        requires pair { IsPair self.old }
        requires robot { robot.0 < self.old.robots }
        ensures { IsPair self.new }
    {
        let Some(event) = self.plain.next(robot) else {
            return false;
        };
        if !self.plain.ready(event.no) {
            return false;
        }
        self.fast.finish(event.no);
        self.plain.finish(event.no);
        true
    }

    /// Takes out the robot's last events, so many or all, where no other's stands behind one of
    /// them. Answers whether they went.
    pub(crate) fn cut_tail(&mut self, robot: RobotNo, count: u32) -> bool
        requires pair { IsPair self.old }
        requires robot { robot.0 < self.old.robots }
        ensures { IsPair self.new }
    {
        let count = count.min(self.plain.left(robot));
        if !self.is_free(robot, count) {
            return false;
        }
        self.fast.cut_tail(robot, count);
        self.plain.cut_tail(robot, count);
        true
    }

    // Whether no event stands behind one of the robot's last.
    fn is_free(&self, robot: RobotNo, count: u32) -> bool
        requires robot { robot.0 < self.now.plain.robots }
        requires count { count ≤ length (own robot.0 self.now.plain.events) }
        ensures { IsTrue result → IsUnawaited self.now.plain.groups self.now.plain.events
            (tail_of robot.0 count self.now.plain.events) }
    {
        let left = self.plain.left(robot);
        for place in left - count..left {
            let Some(event) = self.plain.unfinished(robot, place) else {
                return false;
            };
            if self.plain.awaited(event.no) {
                return false;
            }
        }
        true
    }

    /// Whether both graphs answer each question alike.
    pub(crate) fn answers_alike(&self) -> bool
        requires { IsPair self.now }
    {
        let kept = self.fast.kept() == self.plain.kept();
        if !kept || self.fast.next_number() != self.plain.next_number() {
            return false;
        }
        for robot in 0..self.robots {
            if !self.is_alike_for(RobotNo(robot)) {
                return false;
            }
        }
        true
    }

    // Whether both answer alike for the robot and each of its events.
    fn is_alike_for(&self, robot: RobotNo) -> bool
        requires pair { IsPair self.now }
        requires robot { robot.0 < self.now.robots }
    {
        let left = self.plain.left(robot);
        if self.fast.left(robot) != left || self.fast.next(robot) != self.plain.next(robot) {
            return false;
        }
        for place in 0..left {
            let Some(event) = self.plain.unfinished(robot, place) else {
                return false;
            };
            if self.fast.unfinished(robot, place) != Some(event) {
                return false;
            }
            if !self.is_alike_at(event.no) {
                return false;
            }
        }
        self.fast.unfinished(robot, left).is_none()
    }

    // Whether both answer alike for the event.
    fn is_alike_at(&self, event: EventNo) -> bool
        requires pair { IsPair self.now }
        requires number { HasNumber self.now.plain.events event }
    {
        self.fast.ready(event) == self.plain.ready(event)
            && self.fast.greatest_before(event) == self.plain.greatest_before(event)
            && self.fast.awaited(event) == self.plain.awaited(event)
    }
}
