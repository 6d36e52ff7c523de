//! Runs of robots at a junction, in the middle of which, cell 1, three lanes meet.
//!
//! The calls are made through small functions of this file that tell nothing of them: a test looks at
//! their answers alone, and its proof needn't carry the machine's states along.

ghost use Rattle.std.specs.Prelude.{◌<◌, ◌≤◌, All, length};

use crate::junction::junction;
use coordinator::coordinator::Coordinator;
use coordinator::refused::NewRefused;
use fleet_base::answers::{Look, ProposeRefused, Proposed, ReportRefused, UnknownRobot};
use fleet_base::marks::{Checkpoint, Mark};
use fleet_base::numbers::{CellNo, ClaimNo, EventNo, RobotNo, Span};
use plan_events::expansion::needs;
use plan_events::laws::legal_routes_have_shapes;
use route_plan::cell_set::CellSet;
use route_plan::finder::least_route;
use site_map::site::Site;
use std::alloc::Global;
use std::process::Abort;
use std::test::Fail;

const ONLY: RobotNo = RobotNo(0);

// A coordinator of robots that start in these cells of the junction.
fn started(alloc: Global, starts: &[CellNo], cap: u32) -> Result<Coordinator, Fail>
    requires few { length starts.now ≤ 64 }
    requires known { All (λ a. a.0 < 4) starts.now }
    requires cap { cap ≤ 1000000 }
{
    let site = junction(alloc)?;
    if site.cell_count() != 4 {
        return Err(Fail::new("not the junction"));
    }
    Ok(Coordinator::new(alloc, site, starts, cap)?)
}

fn propose(
    fleet: &mut Coordinator,
    robot: RobotNo,
    cells: &[CellNo],
) -> Result<Proposed, ProposeRefused> {
    fleet.propose(robot, cells)
}

fn report(fleet: &mut Coordinator, event: EventNo) -> Result<(), ReportRefused> {
    fleet.report(ONLY, event)
}

fn look(fleet: &Coordinator, robot: RobotNo) -> Result<Look, UnknownRobot> {
    fleet.look(robot)
}

// How many entries and how many marks there are, the next number, and what is owed.
fn counts(fleet: &Coordinator) -> (usize, usize, EventNo, u64) {
    let (entries, marks) = (fleet.journal().len(), fleet.marks().len());
    (entries, marks, fleet.next_number(), fleet.owed())
}

// The last mark.
fn last_mark(fleet: &Coordinator) -> Option<Mark> {
    fleet.marks().last().copied()
}

// Whether there is no room for an outcome that grows by three, and for one that grows by four.
fn rooms(fleet: &Coordinator) -> (bool, bool) {
    (fleet.is_full(3), fleet.is_full(4))
}

// The robot's place and end, and whether it holds this claim alone.
fn spot(fleet: &Coordinator, claim: ClaimNo) -> (CellNo, CellNo, bool) {
    let _some = fleet.robots(); // with its clauses: there is one
    let held = fleet.holds(ONLY).list() == [claim].as_slice();
    (fleet.at(ONLY), fleet.end(ONLY), held)
}

// The route was merged, under these numbers.
fn check_merged(rt: &impl Abort, fleet: &mut Coordinator, route: &[CellNo], first: u64, last: u64) {
    let span = Span {
        first: EventNo(first),
        last: EventNo(last),
    };
    assert_eq!(rt; propose(fleet, ONLY, route), Ok(Proposed::Merged(span)));
}

// The robot reports these events.
fn check_reports(rt: &impl Abort, fleet: &mut Coordinator, first: u64, last: u64) {
    for event in first..=last {
        assert_eq!(rt; report(fleet, EventNo(event)), Ok(()));
    }
}

// The only robot drives home: a merge from cell 1 to cell 0, and its reports. It is then in cell 0.
fn check_home(rt: &impl Abort, fleet: &mut Coordinator) {
    check_merged(rt, fleet, &[CellNo(1), CellNo(0)], 4, 6);
    check_reports(rt, fleet, 4, 6);
    assert_eq!(rt; spot(fleet, ClaimNo(0)), (CellNo(0), CellNo(0), true));
}

// What `new` says of these starts.
fn refusal(alloc: Global, starts: &[CellNo]) -> Result<Option<NewRefused>, Fail>
    requires few { length starts.now ≤ 64 }
    requires known { All (λ a. a.0 < 4) starts.now }
{
    let site = junction(alloc)?;
    if site.cell_count() != 4 {
        return Err(Fail::new("not the junction"));
    }
    Ok(Coordinator::new(alloc, site, starts, 4).err())
}

#[test]
fn refusals_have_their_causes(rt: HostRuntime) -> Result<(), Fail> {
    assert_eq!(rt; refusal(rt.alloc(), &[])?, Some(NewRefused::NoRobot));
    let clash = NewRefused::Clash {
        one: RobotNo(0),
        other: RobotNo(1),
        claim: ClaimNo(0),
    };
    assert_eq!(rt; refusal(rt.alloc(), &[CellNo(0), CellNo(0)])?, Some(clash));
    let mut fleet = started(rt.alloc(), &[CellNo(0)], 3)?;
    let unknown = RobotNo(1);
    assert_eq!(rt;
        propose(&mut fleet, unknown, &[CellNo(0)]),
        Err(ProposeRefused::UnknownRobot)
    );
    assert_eq!(rt; look(&fleet, unknown), Err(UnknownRobot));
    Ok(())
}

#[test]
fn segments_follow_each_other(rt: HostRuntime) -> Result<(), Fail> {
    let mut fleet = started(rt.alloc(), &[CellNo(0)], 4)?;
    check_merged(&rt, &mut fleet, &[CellNo(0), CellNo(1)], 1, 3);
    assert_eq!(rt; counts(&fleet), (1, 1, EventNo(4), 3));
    let early = propose(&mut fleet, ONLY, &[CellNo(1), CellNo(0)]);
    assert_eq!(rt; early, Err(ProposeRefused::Full));
    check_reports(&rt, &mut fleet, 1, 3);
    check_home(&rt, &mut fleet);
    let second = Mark {
        before: 4,
        next: EventNo(4),
    };
    assert_eq!(rt; counts(&fleet), (8, 2, EventNo(7), 0));
    assert_eq!(rt; last_mark(&fleet), Some(second));
    Ok(())
}

#[test]
fn full_changes_nothing(rt: HostRuntime) -> Result<(), Fail> {
    let mut fleet = started(rt.alloc(), &[CellNo(0)], 3)?;
    assert_eq!(rt; rooms(&fleet), (false, true));
    let full = propose(&mut fleet, ONLY, &[CellNo(0), CellNo(1)]);
    assert_eq!(rt; full, Err(ProposeRefused::Full));
    assert_eq!(rt; counts(&fleet), (0, 1, EventNo(1), 0));
    Ok(())
}

// A coordinator that goes on in cell 1, with number 4.
fn resumed(alloc: Global) -> Result<Coordinator, Fail> {
    let site = junction(alloc)?;
    if site.cell_count() != 4 {
        return Err(Fail::new("not the junction"));
    }
    let mut pending = Vec::new(alloc);
    pending.push(None)?;
    let from = Checkpoint {
        next: EventNo(4),
        at: vec![in alloc; CellNo(1); 1]?,
        pending,
    };
    Ok(Coordinator::resume(alloc, site, &from, 4)?)
}

#[test]
fn checkpoint_is_gone_on_from(rt: HostRuntime) -> Result<(), Fail> {
    let mut fleet = resumed(rt.alloc())?;
    assert_eq!(rt; counts(&fleet), (0, 1, EventNo(4), 0));
    check_home(&rt, &mut fleet);
    assert_eq!(rt; counts(&fleet), (4, 1, EventNo(7), 0));
    Ok(())
}

// Whoever has a coordinator may ask for the least route from each robot's end, for the claims there
// and for what its pending route needs, and may make another one with the same site, starts and cap.
fn made_again(alloc: Global, fleet: &Coordinator, goal: &CellSet) -> Result<Coordinator, Fail> {
    legal_routes_have_shapes();
    let _journal = fleet.journal(); // with its clauses: the pending routes are legal
    for number in 0..fleet.robots() {
        let robot = RobotNo(number);
        let end = fleet.end(robot);
        let _claims = fleet.site().footprint(end);
        let _route = least_route(fleet.site(), end, goal, &CellSet::new(), alloc)?;
        if let Some(cells) = fleet.pending(robot) {
            let _needed = needs(fleet.site(), cells);
        }
    }
    let site = fleet.site().copy()?;
    Ok(Coordinator::new(alloc, site, &fleet.opening().at, fleet.cap())?)
}

// The number of robots and the cap.
fn settings(fleet: &Coordinator) -> (u32, u32) {
    (fleet.robots(), fleet.cap())
}

#[test]
fn coordinator_is_made_again(rt: HostRuntime) -> Result<(), Fail> {
    let mut fleet = started(rt.alloc(), &[CellNo(0), CellNo(1)], 9)?;
    let deferred = propose(&mut fleet, ONLY, &[CellNo(0), CellNo(1)]);
    assert!(rt; matches!(deferred, Ok(Proposed::Deferred(_))));
    let mut goal = CellSet::new();
    goal.put(CellNo(2));
    let other = made_again(rt.alloc(), &fleet, &goal)?;
    assert_eq!(rt; settings(&other), (2, 9));
    assert_eq!(rt; counts(&other), (0, 1, EventNo(1), 0));
    Ok(())
}
