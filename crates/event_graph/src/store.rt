//! How the unfinished events are stored: in slots of consecutive numbers, so that an event is found
//! by its number. The slots of a claim's acquires and releases are chained, and each robot has a
//! queue of the numbers of its events. The slot of a finished event is empty, and is left out once
//! no slot in front of it has an event.

ghost use Rattle.std.specs.Prelude.{◌≡◌, ◌↔◌, ℕ, ◌+◌, ◌<◌, ◌≤◌, ◌^◌, ◌++◌, ◌∷◌, [], true, false, Some, None, length, slice_get, slice_index_or, slice_set, drop, IsTrue, IfOk, OnOk, MatchOption, map};
ghost use Rattle.std.specs.Vec.{vec_capacity};
ghost use Rattle.std.specs.Prelude.{vec_len};
ghost use Rattle.fleet_base.specs.declared.numbers.Event.{Event as AnEvent};
ghost use Rattle.fleet_model.specs.Lists.{In};
ghost use Rattle.fleet_model.specs.Plans.{own, is_awaited};
ghost use Rattle.fleet_model.specs.Good.{IsAscending};
ghost use Rattle.event_graph.specs.Graphs.{HasNumber, IsKnown, IsReadyAmong, greatest_after, has_waiting};
ghost use Rattle.event_graph.specs.Reaches.{IsReached};
ghost use Rattle.event_graph.specs.Stores.{events_of, claim_of, claim_key, AreKeyed, HasEvent, HasNone, HasOne, IsGreatest, IsBehindIn, IsInFrontIn, AreEmptyBelow, AreNumbered, IsLater};

use crate::reach::{Reach, conflict, reach_at};
use fleet_base::numbers::{ClaimGroup, ClaimNo, Event, EventNo, Kind};
use number_queues::NumberQueues;
use slot_chains::SlotChains;

/// The claim of the event in a slot.
pub(crate) fn claim_key(slot: Option<Event>) -> Option<u32>
    ensures { result ≡ claim_key slot }
{
    match slot {
        Some(event) => claim_of(event.kind),
        None => None,
    }
}

/// The claim that is taken or given back.
pub(crate) fn claim_of(kind: Kind) -> Option<u32>
    ensures { result ≡ claim_of kind }
{
    match kind {
        Kind::Acquire(claim) => Some(claim.0),
        Kind::Move(_, _) => None,
        Kind::Release(claim) => Some(claim.0),
    }
}

/// The slot of the event with this number, and the event. `next` is the number of the next event.
pub(crate) fn find(
    slots: &[Option<Event>],
    claims: &SlotChains,
    next: u64,
    number: EventNo,
) -> (u32, Event)
    requires keyed { claims.now.keys ≡ map claim_key slots.now }
    requires numbered { AreNumbered slots.now next }
    requires has { HasNumber (events_of slots.now) number }
    ensures slot { HasEvent slots.now result.0 result.1 }
    ensures number { result.1.no ≡ number }
{
    let back = next - number.0;
    let slot = (u64::from(claims.len()) - back) as u32;
    let Some(event) = slots[slot as usize] else {
        unreachable!()
    };
    (slot, event)
}

/// Whether e stands behind f, which another robot does.
fn is_awaited(groups: &[ClaimGroup], e: Event, f: Event) -> bool
    ensures { result ≡ is_awaited groups.now e f }
{
    match (e.kind, f.kind) {
        (Kind::Acquire(claim), Kind::Release(other)) => {
            f.no.0 < e.no.0 && f.robot.0 != e.robot.0 && conflict(groups, claim, other)
        }
        _ => false,
    }
}

/// Whether the event stands behind a release of the claim.
fn is_behind_release(
    groups: &[ClaimGroup],
    slots: &[Option<Event>],
    claims: &SlotChains,
    claim: u32,
    event: Event,
) -> bool
    requires keyed { claims.now.keys ≡ map claim_key slots.now }
    requires claim { claim < claims.now.chains }
    requires rises { IsAscending 0 (events_of slots.now) }
    ensures some { result ≡ true → HasOne (IsBehindIn groups.now claim (claim + 1) event) (events_of slots.now) }
    ensures none { result ≡ false → HasNone (IsBehindIn groups.now claim (claim + 1) event) (events_of slots.now) }
{
    let Kind::Acquire(taken) = event.kind else {
        return false;
    };
    if !conflict(groups, taken, ClaimNo(claim)) {
        return false;
    }
    let mut at = claims.first(claim);
    while let Some(slot) = at {
        let Some(earlier) = slots[slot as usize] else {
            return false;
        };
        if event.no.0 <= earlier.no.0 {
            return false;
        }
        if is_awaited(groups, event, earlier) {
            return true;
        }
        at = claims.behind(slot);
    }
    false
}

/// The greatest number among the releases of the claim that the event stands behind.
fn last_release(
    groups: &[ClaimGroup],
    slots: &[Option<Event>],
    claims: &SlotChains,
    claim: u32,
    event: Event,
) -> Option<EventNo>
    requires keyed { claims.now.keys ≡ map claim_key slots.now }
    requires claim { claim < claims.now.chains }
    requires rises { IsAscending 0 (events_of slots.now) }
    ensures { IsGreatest (IsBehindIn groups.now claim (claim + 1) event) (events_of slots.now) result }
{
    let Kind::Acquire(taken) = event.kind else {
        return None;
    };
    if !conflict(groups, taken, ClaimNo(claim)) {
        return None;
    }
    let mut last = None;
    let mut at = claims.first(claim);
    while let Some(slot) = at {
        let Some(earlier) = slots[slot as usize] else {
            return last;
        };
        if event.no.0 <= earlier.no.0 {
            return last;
        }
        if is_awaited(groups, event, earlier) {
            last = Some(earlier.no);
        }
        at = claims.behind(slot);
    }
    last
}

/// Whether an acquire of the claim stands behind the event.
fn is_before_acquire(
    groups: &[ClaimGroup],
    slots: &[Option<Event>],
    claims: &SlotChains,
    claim: u32,
    event: Event,
) -> bool
    requires keyed { claims.now.keys ≡ map claim_key slots.now }
    requires claim { claim < claims.now.chains }
    requires rises { IsAscending 0 (events_of slots.now) }
    ensures some { result ≡ true → HasOne (IsInFrontIn groups.now claim (claim + 1) event) (events_of slots.now) }
    ensures none { result ≡ false → HasNone (IsInFrontIn groups.now claim (claim + 1) event) (events_of slots.now) }
{
    let Kind::Release(given) = event.kind else {
        return false;
    };
    if !conflict(groups, ClaimNo(claim), given) {
        return false;
    }
    let mut at = claims.last(claim);
    while let Some(slot) = at {
        let Some(later) = slots[slot as usize] else {
            return false;
        };
        if later.no.0 <= event.no.0 {
            return false;
        }
        if is_awaited(groups, later, event) {
            return true;
        }
        at = claims.before(slot);
    }
    false
}

/// Whether the event stands behind none of the events.
fn is_free(
    groups: &[ClaimGroup],
    reaches: &[Reach],
    slots: &[Option<Event>],
    claims: &SlotChains,
    event: Event,
) -> bool
    requires keyed { claims.now.keys ≡ map claim_key slots.now }
    requires claims { claims.now.chains ≡ length groups.now }
    requires reached { IsReached groups.now reaches.now }
    requires rises { IsAscending 0 (events_of slots.now) }
    ensures some { result ≡ false → HasOne (λ f. is_awaited groups.now event f ≡ true) (events_of slots.now) }
    ensures none { result ≡ true → HasNone (λ f. is_awaited groups.now event f ≡ true) (events_of slots.now) }
{
    let Kind::Acquire(taken) = event.kind else {
        return true;
    };
    let Some(reach) = reach_at(reaches, taken) else {
        return true;
    };
    for claim in reach.first..reach.end {
        if is_behind_release(groups, slots, claims, claim, event) {
            return false;
        }
    }
    true
}

/// The later of two numbers, where there is one.
fn later(one: Option<EventNo>, other: Option<EventNo>) -> Option<EventNo>
    ensures { IsLater one other result }
{
    match (one, other) {
        (Some(n), Some(m)) => { if n.0 < m.0 { other } else { one } }
        (Some(_), None) => one,
        (None, _) => other,
    }
}

/// The greatest number of an event that this one stands behind.
pub(crate) fn greatest(
    groups: &[ClaimGroup],
    reaches: &[Reach],
    slots: &[Option<Event>],
    claims: &SlotChains,
    event: Event,
) -> Option<EventNo>
    requires keyed { claims.now.keys ≡ map claim_key slots.now }
    requires claims { claims.now.chains ≡ length groups.now }
    requires reached { IsReached groups.now reaches.now }
    requires rises { IsAscending 0 (events_of slots.now) }
    ensures { result ≡ greatest_after groups.now (events_of slots.now) event }
{
    let Kind::Acquire(taken) = event.kind else {
        return None;
    };
    let Some(reach) = reach_at(reaches, taken) else {
        return None;
    };
    let mut last = None;
    for claim in reach.first..reach.end {
        last = later(last, last_release(groups, slots, claims, claim, event));
    }
    last
}

/// Whether an event stands behind this one.
pub(crate) fn is_waited_for(
    groups: &[ClaimGroup],
    reaches: &[Reach],
    slots: &[Option<Event>],
    claims: &SlotChains,
    event: Event,
) -> bool
    requires keyed { claims.now.keys ≡ map claim_key slots.now }
    requires claims { claims.now.chains ≡ length groups.now }
    requires reached { IsReached groups.now reaches.now }
    requires rises { IsAscending 0 (events_of slots.now) }
    ensures { result ≡ has_waiting groups.now (events_of slots.now) event }
{
    let Kind::Release(given) = event.kind else {
        return false;
    };
    let Some(reach) = reach_at(reaches, given) else {
        return false;
    };
    for claim in reach.first..reach.end {
        if is_before_acquire(groups, slots, claims, claim, event) {
            return true;
        }
    }
    false
}

/// Whether the event is its robot's first and stands behind none.
pub(crate) fn is_ready(
    groups: &[ClaimGroup],
    reaches: &[Reach],
    slots: &[Option<Event>],
    robots: &NumberQueues,
    claims: &SlotChains,
    event: Event,
) -> bool
    requires keyed { AreKeyed slots.now robots.now claims.now }
    requires claims { claims.now.chains ≡ length groups.now }
    requires reached { IsReached groups.now reaches.now }
    requires rises { IsAscending 0 (events_of slots.now) }
    requires event { In event (events_of slots.now) }
    requires robot { event.robot.0 < length robots.now.queues }
    ensures { IsTrue result ↔ IsReadyAmong groups.now (events_of slots.now) event }
{
    let Some(first) = robots.get(event.robot.0, 0) else {
        return false;
    };
    if first != event.no.0 {
        return false;
    }
    is_free(groups, reaches, slots, claims, event)
}

/// The robot's event at that place, from 0.
pub(crate) fn own_at(
    slots: &[Option<Event>],
    robots: &NumberQueues,
    claims: &SlotChains,
    next: u64,
    robot: u32,
    index: u32,
) -> Option<Event>
    requires keyed { AreKeyed slots.now robots.now claims.now }
    requires rises { IsAscending 0 (events_of slots.now) }
    requires numbered { AreNumbered slots.now next }
    requires robot { robot < length robots.now.queues }
    ensures { result ≡ slice_get (own robot (events_of slots.now)) index }
{
    let Some(number) = robots.get(robot, index) else {
        return None;
    };
    Some(find(slots, claims, next, EventNo(number)).1)
}

/// How many slots in front are empty.
pub(crate) fn empty_in_front(slots: &[Option<Event>]) -> usize
    ensures within { result ≤ length slots.now }
    ensures empty { AreEmptyBelow slots.now result }
{
    for slot in 0..slots.len() {
        if slots[slot].is_some() {
            return slot;
        }
    }
    slots.len()
}

/// Leaves out the first slots, so many, which are empty.
pub(crate) fn leave_out(slots: &mut Vec<Option<Event>>, claims: &mut SlotChains, count: usize)
    requires keyed { claims.old.keys ≡ map claim_key slots.old.items }
    requires known { (e : AnEvent) → In e (events_of slots.old.items) → IsKnown claims.old.chains e.kind }
    requires within { count ≤ length slots.old.items }
    requires empty { AreEmptyBelow slots.old.items count }
    ensures slots { slots.new.items ≡ drop count slots.old.items }
    ensures keyed { claims.new.keys ≡ map claim_key slots.new.items }
    ensures chains { claims.new.chains ≡ claims.old.chains }
{
    slots.rotate_left(count);
    slots.truncate(slots.len() - count);
    claims.clear();
    for slot in slots.iter() {
        claims.push(claim_key(*slot));
    }
}
