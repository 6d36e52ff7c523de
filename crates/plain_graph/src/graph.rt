//! The graph of unfinished events.

ghost use Rattle.std.specs.Prelude.{◌≡◌, ◌↔◌, ◌+◌, ◌++◌, ◌<◌, ◌≤◌, ◌^◌, [], length, slice_get, IsTrue, IfOk, OnOk};
ghost use Rattle.fleet_base.specs.declared.numbers.Kind.{Kind};
ghost use Rattle.fleet_model.specs.Lists.{In};
ghost use Rattle.fleet_model.specs.Plans.{own, numbered};
ghost use Rattle.event_graph.specs.Graphs.{IsGraph, IsKnown, AreApart, HasNumber, AtNumber, IsReadyAmong, HasReady, greatest_after, has_waiting, without_number, without_events, tail_of, IsUnawaited, HasSameSetting, IsUnchanged};

use crate::scans::{event_at, greatest, is_ready, is_waited_for};
use fleet_base::limits::{MAX_CLAIMS, MAX_ROBOTS};
use fleet_base::numbers::{ClaimGroup, Event, EventNo, Kind, RobotNo};
use fleet_base::path::NoMemory;
use std::alloc::Global;
use std::marker::Model;

/// The unfinished events of a plan in order of number, and the next number. Nothing of a finished
/// event is kept.
#[derive(Drop)]
pub struct PlainGraph {
    robots: u32,
    groups: Vec<ClaimGroup>,
    kept: Vec<Event>,
    next_no: u64,
}

impl Model for PlainGraph {
    ghost use Rattle.std.specs.Prelude.{◌-◌, vec_len};
    ghost use Rattle.std.specs.Vec.{vec_capacity};
    ghost use Rattle.event_graph.specs.Graphs.{Graph, IsGraph};

    ghost Value = { Graph };

    ghost view = { λ g. record {
      robots = g.robots;
      groups = g.groups.items;
      events = g.kept.items;
      next = g.next_no;
      spare = vec_capacity g.kept - vec_len g.kept;
    } };

    ghost invariant = { λ g. IsGraph g.robots g.groups.items g.kept.items g.next_no };
}

impl PlainGraph {
    /// A graph of so many robots and of claims with these groups. It has no event, and the next
    /// number is `first`.
    pub fn new(
        alloc: Global,
        robots: u32,
        groups: &[ClaimGroup],
        first: EventNo,
    ) -> Result<PlainGraph, NoMemory>
        requires robots { robots ≤ MAX_ROBOTS }
        requires claims { length groups.now ≤ MAX_CLAIMS }
        ensures robots { IfOk result (λ g. g.robots ≡ robots) }
        ensures groups { IfOk result (λ g. g.groups ≡ groups.now) }
        ensures events { IfOk result (λ g. g.events ≡ []) }
        ensures next { IfOk result (λ g. g.next ≡ first.0) }
    {
        Ok(PlainGraph {
            robots,
            groups: Vec::from_slice(alloc, groups)?,
            kept: Vec::new(alloc),
            next_no: first.0,
        })
    }

    /// The robot's first unfinished event.
    pub fn next(&self, robot: RobotNo) -> Option<Event>
        requires { robot.0 < self.now.robots }
        ensures { result ≡ slice_get (own robot.0 self.now.events) 0 }
    {
        self.unfinished(robot, 0)
    }

    /// Whether no earlier event of the event's robot is unfinished, and none that it stands behind.
    pub fn ready(&self, event: EventNo) -> bool
        requires { HasNumber self.now.events event }
        ensures { AtNumber self.now.events event
            (λ e. IsTrue result ↔ IsReadyAmong self.now.groups self.now.events e) }
    {
        is_ready(&self.groups, &self.kept, event_at(&self.kept, event))
    }

    /// The greatest number of an unfinished event that this one stands behind.
    pub fn greatest_before(&self, event: EventNo) -> Option<EventNo>
        requires { HasNumber self.now.events event }
        ensures { AtNumber self.now.events event
            (λ e. result ≡ greatest_after self.now.groups self.now.events e) }
    {
        greatest(&self.groups, &self.kept, event_at(&self.kept, event))
    }

    /// The robot's unfinished event at that place, from 0. None where there are no more.
    pub fn unfinished(&self, robot: RobotNo, index: u32) -> Option<Event>
        requires { robot.0 < self.now.robots }
        ensures { result ≡ slice_get (own robot.0 self.now.events) index }
    {
        let kept: &[Event] = &self.kept;
        kept.iter()
            .filter(|e| e.robot.0 == robot.0)
            .nth(index as usize)
            .copied()
    }

    /// How many unfinished events the robot has.
    pub fn left(&self, robot: RobotNo) -> u32
        requires { robot.0 < self.now.robots }
        ensures { result ≡ length (own robot.0 self.now.events) }
    {
        let kept: &[Event] = &self.kept;
        kept.iter().filter(|e| e.robot.0 == robot.0).count() as u32
    }

    /// Whether an unfinished event of another robot stands behind this one.
    pub fn awaited(&self, event: EventNo) -> bool
        requires { HasNumber self.now.events event }
        ensures { AtNumber self.now.events event
            (λ f. result ≡ has_waiting self.now.groups self.now.events f) }
    {
        is_waited_for(&self.groups, &self.kept, event_at(&self.kept, event))
    }

    /// The number of stored events, which are the unfinished ones. What every graph keeps is said
    /// here.
    pub fn kept(&self) -> u64
        ensures count { result ≡ length self.now.events }
        ensures graph { IsGraph self.now.robots self.now.groups self.now.events self.now.next }
    {
        self.kept.len() as u64
    }

    /// The number of the next event that is appended.
    pub fn next_number(&self) -> EventNo
        ensures { result.0 ≡ self.now.next }
    {
        EventNo(self.next_no)
    }

    /// Takes out an event that is ready.
    pub fn finish(&mut self, event: EventNo)
        requires { HasReady self.old.groups self.old.events event }
        ensures events { self.new.events ≡ without_number self.old.events event }
        ensures next { self.new.next ≡ self.old.next }
        ensures setting { HasSameSetting self.old self.new }
    {
        self.kept.retain(|e| e.no.0 != event.0);
    }

    /// Makes room for as many events as these. Where no memory is left the graph is as before.
    pub fn reserve(&mut self, kinds: &[Kind]) -> Result<(), NoMemory>
        ensures room { OnOk result (length kinds.now ≤ self.new.spare) }
        ensures unchanged { IsUnchanged self.old self.new }
    {
        self.kept.reserve(kinds.len())?;
        Ok(())
    }

    /// Adds what the robot does at the end, under consecutive numbers from the next number on, and
    /// answers the first. It takes no memory.
    pub fn append(&mut self, robot: RobotNo, kinds: &[Kind]) -> EventNo
        requires room { length kinds.now ≤ self.old.spare }
        requires number { self.old.next < 10 ^ 15 }
        requires few { length self.old.events + length kinds.now < 2 ^ 32 }
        requires robot { robot.0 < self.old.robots }
        requires known { (k : Kind) → In k kinds.now → IsKnown (length self.old.groups) k }
        requires apart { AreApart self.old.groups
            (self.old.events ++ numbered self.old.next robot.0 kinds.now) }
        ensures first { result.0 ≡ self.old.next }
        ensures events { self.new.events
            ≡ self.old.events ++ numbered self.old.next robot.0 kinds.now }
        ensures next { self.new.next ≡ self.old.next + length kinds.now }
        ensures setting { HasSameSetting self.old self.new }
    {
        let first = self.next_no;
        for kind in kinds {
            self.kept.push_reserved(Event {
                no: EventNo(self.next_no),
                robot,
                kind: *kind,
            });
            self.next_no += 1;
        }
        EventNo(first)
    }

    /// Takes out the robot's last `count` events.
    pub fn cut_tail(&mut self, robot: RobotNo, count: u32)
        requires robot { robot.0 < self.old.robots }
        requires unfinished { count ≤ length (own robot.0 self.old.events) }
        requires unawaited { IsUnawaited self.old.groups self.old.events
            (tail_of robot.0 count self.old.events) }
        ensures events { self.new.events
            ≡ without_events self.old.events (tail_of robot.0 count self.old.events) }
        ensures next { self.new.next ≡ self.old.next }
        ensures setting { HasSameSetting self.old self.new }
    {
        let place = self.left(robot) - count;
        let Some(first) = self.unfinished(robot, place) else {
            return;
        };
        self.kept
            .retain(|e| !(e.robot.0 == robot.0 && e.no.0 >= first.no.0));
    }
}
