//! Scans over the unfinished events, for one of them.

ghost use Rattle.std.specs.Prelude.{◌≡◌, ◌↔◌, IsTrue};
ghost use Rattle.fleet_base.specs.declared.numbers.Event.{Event};
ghost use Rattle.fleet_model.specs.Lists.{In};
ghost use Rattle.fleet_model.specs.Sites.{in_conflict};
ghost use Rattle.fleet_model.specs.Plans.{clashes as clash_of, is_awaited as awaits, IsBehind};
ghost use Rattle.fleet_model.specs.Good.{IsAscending};
ghost use Rattle.event_graph.specs.Graphs.{HasNumber, IsReadyAmong, greatest_after, has_waiting};

use fleet_base::numbers::{ClaimGroup, ClaimNo, Event, EventNo, Kind};

/// Whether two robots must not hold these claims at once.
#[tactic(auto, unfolding(fleet_model::specs::Sites::in_conflict))]
fn conflict(groups: &[ClaimGroup], one: ClaimNo, other: ClaimNo) -> bool
    ensures { result ≡ in_conflict groups.now one other }
{
    match (groups.get(one.0 as usize), groups.get(other.0 as usize)) {
        (Some(g), Some(h)) => g.group == h.group && (one.0 != other.0 || g.alone),
        _ => false,
    }
}

/// Whether the first kind acquires a claim that conflicts with the one that the second releases.
fn clashes(groups: &[ClaimGroup], acquire: Kind, release: Kind) -> bool
    ensures { result ≡ clash_of groups.now acquire release }
{
    match (acquire, release) {
        (Kind::Acquire(a), Kind::Release(b)) => conflict(groups, a, b),
        _ => false,
    }
}

/// Whether e stands behind f, which another robot does.
fn is_awaited(groups: &[ClaimGroup], e: Event, f: Event) -> bool
    ensures { result ≡ awaits groups.now e f }
{
    f.no.0 < e.no.0 && f.robot.0 != e.robot.0 && clashes(groups, e.kind, f.kind)
}

/// Whether e comes behind f: f is an earlier event of its robot, or one that it stands behind.
fn is_behind(groups: &[ClaimGroup], e: Event, f: Event) -> bool
    ensures { IsTrue result ↔ IsBehind groups.now e f }
{
    f.robot.0 == e.robot.0 && f.no.0 < e.no.0 || is_awaited(groups, e, f)
}

/// The event with this number.
pub(crate) fn event_at(events: &[Event], n: EventNo) -> Event
    requires { HasNumber events.now n }
    ensures among { In result events.now }
    ensures number { result.no ≡ n }
{
    for e in events {
        if e.no.0 == n.0 {
            return *e;
        }
    }
    events[0]
}

/// Whether e, one of these, comes behind none of them.
pub(crate) fn is_ready(groups: &[ClaimGroup], events: &[Event], e: Event) -> bool
    requires { In e events.now }
    ensures { IsTrue result ↔ IsReadyAmong groups.now events.now e }
{
    for f in events {
        if is_behind(groups, e, *f) {
            return false;
        }
    }
    true
}

/// The greatest number among the releases of these that e stands behind.
pub(crate) fn greatest(groups: &[ClaimGroup], events: &[Event], e: Event) -> Option<EventNo>
    requires { IsAscending 0 events.now }
    ensures { result ≡ greatest_after groups.now events.now e }
{
    let mut last = None;
    for f in events {
        if is_awaited(groups, e, *f) {
            last = Some(f.no);
        }
    }
    last
}

/// Whether one of these stands behind f.
pub(crate) fn is_waited_for(groups: &[ClaimGroup], events: &[Event], f: Event) -> bool
    ensures { result ≡ has_waiting groups.now events.now f }
{
    events.iter().any(|e| is_awaited(groups, *e, f))
}
