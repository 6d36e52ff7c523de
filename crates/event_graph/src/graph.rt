//! The graph of unfinished events.

ghost use Rattle.std.specs.Prelude.{◌≡◌, ◌↔◌, ◌+◌, ◌++◌, ◌<◌, ◌≤◌, ◌^◌, [], length, slice_get, IsTrue, IfOk, OnOk};
ghost use Rattle.fleet_base.specs.declared.numbers.Kind.{Kind};
ghost use Rattle.fleet_model.specs.Lists.{In};
ghost use Rattle.fleet_model.specs.Plans.{own, numbered};
ghost use Rattle.event_graph.specs.Graphs.{IsGraph, IsKnown, AreApart, HasNumber, AtNumber, IsReadyAmong, HasReady, greatest_after, has_waiting, without_number, without_events, tail_of, IsUnawaited, HasSameSetting, IsUnchanged};

use crate::reach::{Reach, reaches};
use crate::store::{
    claim_of, empty_in_front, find, greatest, is_ready, is_waited_for, leave_out, own_at,
};
use fleet_base::limits::{MAX_CLAIMS, MAX_ROBOTS};
use fleet_base::numbers::{ClaimGroup, Event, EventNo, Kind, RobotNo};
use fleet_base::path::NoMemory;
use number_queues::NumberQueues;
use slot_chains::SlotChains;
use std::alloc::Global;
use std::marker::Model;

/// The unfinished events of a plan in order of number, and the next number. Nothing of a finished
/// event is kept.
#[derive(Drop)]
pub struct EventGraph {
    groups: Vec<ClaimGroup>,
    reaches: Vec<Reach>,
    slots: Vec<Option<Event>>,
    robots: NumberQueues,
    claims: SlotChains,
    kept: u64,
    next_no: u64,
}

impl Model for EventGraph {
    ghost use Rattle.std.specs.Prelude.{◌-◌, min, length, vec_len};
    ghost use Rattle.std.specs.Vec.{vec_capacity};
    ghost use Rattle.event_graph.specs.Graphs.{Graph};
    ghost use Rattle.event_graph.specs.Stores.{events_of};
    ghost use Rattle.event_graph.specs.Stored.{IsStored};

    ghost Value = { Graph };

    ghost view = { λ g. record {
      robots = length g.robots.queues;
      groups = g.groups.items;
      events = events_of g.slots.items;
      next = g.next_no;
      spare = min (vec_capacity g.slots - vec_len g.slots) (min g.robots.spare g.claims.spare);
    } };

    ghost invariant = { λ g. IsStored g.groups.items g.reaches.items g.slots.items g.robots g.claims g.kept g.next_no };
}

impl EventGraph {
    /// A graph of so many robots and of claims with these groups. It has no event, and the next
    /// number is `first`.
    pub fn new(
        alloc: Global,
        robots: u32,
        groups: &[ClaimGroup],
        first: EventNo,
    ) -> Result<EventGraph, NoMemory>
        requires robots { robots ≤ MAX_ROBOTS }
        requires claims { length groups.now ≤ MAX_CLAIMS }
        ensures robots { IfOk result (λ g. g.robots ≡ robots) }
        ensures groups { IfOk result (λ g. g.groups ≡ groups.now) }
        ensures events { IfOk result (λ g. g.events ≡ []) }
        ensures next { IfOk result (λ g. g.next ≡ first.0) }
    {
        Ok(EventGraph {
            groups: Vec::from_slice(alloc, groups)?,
            reaches: reaches(alloc, groups)?,
            slots: Vec::new(alloc),
            robots: NumberQueues::new(alloc, robots)?,
            claims: SlotChains::new(alloc, groups.len() as u32)?,
            kept: 0,
            next_no: first.0,
        })
    }

    /// The robot's first unfinished event.
    pub fn next(&self, robot: RobotNo) -> Option<Event>
        requires { robot.0 < self.now.robots }
        ensures { result ≡ slice_get (own robot.0 self.now.events) 0 }
    {
        own_at(
            &self.slots,
            &self.robots,
            &self.claims,
            self.next_no,
            robot.0,
            0,
        )
    }

    /// Whether no earlier event of the event's robot is unfinished, and none that it stands behind.
    pub fn ready(&self, event: EventNo) -> bool
        requires { HasNumber self.now.events event }
        ensures { AtNumber self.now.events event
            (λ e. IsTrue result ↔ IsReadyAmong self.now.groups self.now.events e) }
    {
        let (_, event) = find(&self.slots, &self.claims, self.next_no, event);
        is_ready(
            &self.groups,
            &self.reaches,
            &self.slots,
            &self.robots,
            &self.claims,
            event,
        )
    }

    /// The greatest number of an unfinished event that this one stands behind.
    pub fn greatest_before(&self, event: EventNo) -> Option<EventNo>
        requires { HasNumber self.now.events event }
        ensures { AtNumber self.now.events event
            (λ e. result ≡ greatest_after self.now.groups self.now.events e) }
    {
        let (_, event) = find(&self.slots, &self.claims, self.next_no, event);
        greatest(
            &self.groups,
            &self.reaches,
            &self.slots,
            &self.claims,
            event,
        )
    }

    /// The robot's unfinished event at that place, from 0. None where there are no more.
    pub fn unfinished(&self, robot: RobotNo, index: u32) -> Option<Event>
        requires { robot.0 < self.now.robots }
        ensures { result ≡ slice_get (own robot.0 self.now.events) index }
    {
        own_at(
            &self.slots,
            &self.robots,
            &self.claims,
            self.next_no,
            robot.0,
            index,
        )
    }

    /// How many unfinished events the robot has.
    pub fn left(&self, robot: RobotNo) -> u32
        requires { robot.0 < self.now.robots }
        ensures { result ≡ length (own robot.0 self.now.events) }
    {
        self.robots.len(robot.0)
    }

    /// Whether an unfinished event of another robot stands behind this one.
    pub fn awaited(&self, event: EventNo) -> bool
        requires { HasNumber self.now.events event }
        ensures { AtNumber self.now.events event
            (λ f. result ≡ has_waiting self.now.groups self.now.events f) }
    {
        let (_, event) = find(&self.slots, &self.claims, self.next_no, event);
        is_waited_for(
            &self.groups,
            &self.reaches,
            &self.slots,
            &self.claims,
            event,
        )
    }

    /// The number of stored events, which are the unfinished ones. What every graph keeps is said
    /// here.
    pub fn kept(&self) -> u64
        ensures count { result ≡ length self.now.events }
        ensures graph { IsGraph self.now.robots self.now.groups self.now.events self.now.next }
    {
        self.kept
    }

    /// The number of the next event that is appended.
    pub fn next_number(&self) -> EventNo
        ensures { result.0 ≡ self.now.next }
    {
        EventNo(self.next_no)
    }

    /// Takes out an event that is ready.
    pub fn finish(&mut self, event: EventNo)
        requires { HasReady self.old.groups self.old.events event }
        ensures events { self.new.events ≡ without_number self.old.events event }
        ensures next { self.new.next ≡ self.old.next }
        ensures setting { HasSameSetting self.old self.new }
    {
        let (slot, done) = find(&self.slots, &self.claims, self.next_no, event);
        self.slots[slot as usize] = None;
        self.robots.pop_front(done.robot.0);
        self.claims.remove(slot);
        self.kept -= 1;
    }

    /// Makes room for as many events as these. Where no memory is left the graph is as before.
    pub fn reserve(&mut self, kinds: &[Kind]) -> Result<(), NoMemory>
        ensures room { OnOk result (length kinds.now ≤ self.new.spare) }
        ensures unchanged { IsUnchanged self.old self.new }
    {
        self.leave_out_empty(kinds.len());
        self.make_room(kinds.len())
    }

    /// Adds what the robot does at the end, under consecutive numbers from the next number on, and
    /// answers the first. It takes no memory.
    pub fn append(&mut self, robot: RobotNo, kinds: &[Kind]) -> EventNo
        requires room { length kinds.now ≤ self.old.spare }
        requires number { self.old.next < 10 ^ 15 }
        requires few { length self.old.events + length kinds.now < 2 ^ 32 }
        requires robot { robot.0 < self.old.robots }
        requires known { (k : Kind) → In k kinds.now → IsKnown (length self.old.groups) k }
        requires apart { AreApart self.old.groups
            (self.old.events ++ numbered self.old.next robot.0 kinds.now) }
        ensures first { result.0 ≡ self.old.next }
        ensures events { self.new.events
            ≡ self.old.events ++ numbered self.old.next robot.0 kinds.now }
        ensures next { self.new.next ≡ self.old.next + length kinds.now }
        ensures setting { HasSameSetting self.old self.new }
    {
        let first = self.next_no;
        for kind in kinds {
            self.slots.push_reserved(Some(Event {
                no: EventNo(self.next_no),
                robot,
                kind: *kind,
            }));
            self.robots.push(robot.0, self.next_no);
            self.claims.push(claim_of(*kind));
            self.next_no += 1;
        }
        self.kept += kinds.len() as u64;
        EventNo(first)
    }

    /// Takes out the robot's last `count` events.
    pub fn cut_tail(&mut self, robot: RobotNo, count: u32)
        requires robot { robot.0 < self.old.robots }
        requires unfinished { count ≤ length (own robot.0 self.old.events) }
        requires unawaited { IsUnawaited self.old.groups self.old.events
            (tail_of robot.0 count self.old.events) }
        ensures events { self.new.events
            ≡ without_events self.old.events (tail_of robot.0 count self.old.events) }
        ensures next { self.new.next ≡ self.old.next }
        ensures setting { HasSameSetting self.old self.new }
    {
        for _gone in 0..count {
            let Some(number) = self.robots.pop_back(robot.0) else {
                return;
            };
            let (slot, _) = find(&self.slots, &self.claims, self.next_no, EventNo(number));
            self.slots[slot as usize] = None;
            self.claims.remove(slot);
            self.kept -= 1;
        }
    }

    /// Leaves out the empty slots in front, where there is no room for so many more and they are the
    /// greater part.
    fn leave_out_empty(&mut self, more: usize)
        ensures { IsUnchanged self.old self.new }
    {
        let slots = self.slots.len();
        if self.slots.capacity() - slots < more {
            let empty = empty_in_front(&self.slots);
            if slots / 2 < empty {
                leave_out(&mut self.slots, &mut self.claims, empty);
            }
        }
    }

    /// Makes room for so many more events.
    fn make_room(&mut self, more: usize) -> Result<(), NoMemory>
        ensures room { OnOk result (more ≤ self.new.spare) }
        ensures unchanged { IsUnchanged self.old self.new }
    {
        let Ok(more) = u32::try_from(more) else {
            return Err(NoMemory);
        };
        self.slots.reserve(more as usize)?;
        self.robots.reserve(more)?;
        self.claims.reserve(more)?;
        Ok(())
    }
}
