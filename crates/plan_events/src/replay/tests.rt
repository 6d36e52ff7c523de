//! Orders of two robots, legal ones and others.

ghost use Rattle.std.specs.Prelude.{◌≡◌, length, All, IfOk, IsTrue};
ghost use Rattle.site_map.specs.Claims.{claim_total};
ghost use Rattle.plan_events.specs.Clashes.{IsEventOf};

use crate::refused::ReplayClash;
use crate::replay::{Holding, replay_order};
use fleet_base::numbers::{CellNo, ClaimNo, Event, EventNo, Kind, RobotNo};
use site_map::builder::SiteBuilder;
use site_map::refused::BuildRefused;
use site_map::site::Site;
use std::alloc::Global;
use std::process::Abort;
use std::test::Fail;

// Cells 0 to 5, and a crossing with the cells 1 and 4, which has claim 6.
fn yard(alloc: Global) -> Result<Site, BuildRefused> {
    let mut builder = SiteBuilder::new(alloc);
    for _ in 0..6u32 {
        builder.cell()?;
    }
    builder.crossing(&[CellNo(1), CellNo(4)])?;
    Ok(builder.finish())
}

// Cells 0 to 5, and no crossing.
fn floor(alloc: Global) -> Result<Site, BuildRefused> {
    let mut builder = SiteBuilder::new(alloc);
    for _ in 0..6u32 {
        builder.cell()?;
    }
    Ok(builder.finish())
}

// Whether the event is one of two robots, and of the site.
fn is_known(site: &Site, event: &Event) -> bool
    ensures { IsTrue result → IsEventOf 2 site.now.cells (claim_total site.now) event.now }
{
    let (cells, claims) = (site.cell_count(), site.claim_count());
    event.robot.0 < 2
        && match event.kind {
            Kind::Acquire(claim) => claim.0 < claims,
            Kind::Move(from, to) => from.0 < cells && to.0 < cells,
            Kind::Release(claim) => claim.0 < claims,
        }
}

// Whether all events are.
fn are_known(site: &Site, events: &[Event]) -> bool
    ensures { IsTrue result → All (IsEventOf 2 site.now.cells (claim_total site.now)) events.now }
{
    for event in events {
        if !is_known(site, event) {
            return false;
        }
    }
    true
}

// The events of two robots that start in the cells 0 and 3 are played.
fn play(
    rt: &impl Abort,
    alloc: Global,
    site: &Site,
    events: &[Event],
) -> Result<Holding, ReplayClash>
    ensures places { IfOk result (λ holding. length holding.places ≡ 2) }
    ensures holdings { IfOk result (λ holding. length holding.holdings ≡ 2) }
{
    assert!(rt; site.cell_count() == 6);
    assert!(rt; are_known(site, events));
    replay_order(alloc, site, &[CellNo(0), CellNo(3)], events)
}

fn acquire(no: u64, robot: u32, claim: u32) -> Event {
    Event {
        no: EventNo(no),
        robot: RobotNo(robot),
        kind: Kind::Acquire(ClaimNo(claim)),
    }
}

fn drive(no: u64, robot: u32, from: u32, to: u32) -> Event {
    Event {
        no: EventNo(no),
        robot: RobotNo(robot),
        kind: Kind::Move(CellNo(from), CellNo(to)),
    }
}

fn release(no: u64, robot: u32, claim: u32) -> Event {
    Event {
        no: EventNo(no),
        robot: RobotNo(robot),
        kind: Kind::Release(ClaimNo(claim)),
    }
}

#[test]
fn legal_order_is_played(rt: HostRuntime) -> Result<(), Fail> {
    let site = yard(rt.alloc())?;
    let events = [
        acquire(1, 0, 1),
        acquire(5, 1, 4),
        acquire(2, 0, 6),
        drive(3, 0, 0, 1),
        release(4, 0, 0),
    ];
    let holding = play(&rt, rt.alloc(), &site, &events)?;
    assert_eq!(rt; holding.at(RobotNo(0)), CellNo(1));
    assert_eq!(rt; holding.at(RobotNo(1)), CellNo(3));
    let crossing = [ClaimNo(1), ClaimNo(6)];
    assert_eq!(rt; holding.held(RobotNo(0)), crossing.as_slice());
    let both = [ClaimNo(3), ClaimNo(4)];
    assert_eq!(rt; holding.held(RobotNo(1)), both.as_slice());
    Ok(())
}

// Robot 0 drives over cell 1 to cell 2, and robot 1 waits for what it gives back.
#[test]
fn order_behind_a_release_is_played(rt: HostRuntime) -> Result<(), Fail> {
    let site = floor(rt.alloc())?;
    let events = [
        acquire(1, 0, 1),
        drive(2, 0, 0, 1),
        release(3, 0, 0),
        acquire(4, 0, 2),
        drive(5, 0, 1, 2),
        release(6, 0, 1),
        acquire(7, 1, 1),
    ];
    let holding = play(&rt, rt.alloc(), &site, &events)?;
    assert_eq!(rt; holding.at(RobotNo(0)), CellNo(2));
    let both = [ClaimNo(1), ClaimNo(3)];
    assert_eq!(rt; holding.held(RobotNo(1)), both.as_slice());
    let early = [acquire(1, 0, 1), acquire(7, 1, 1)];
    assert!(rt; play(&rt, rt.alloc(), &site, &early).is_err());
    Ok(())
}

// Robot 0 drives through the crossing, and robot 1 takes its cell of it early, the crossing late.
#[test]
fn order_through_a_crossing_is_played(rt: HostRuntime) -> Result<(), Fail> {
    let site = yard(rt.alloc())?;
    let events = [
        acquire(9, 1, 4),
        acquire(1, 0, 1),
        acquire(2, 0, 6),
        drive(3, 0, 0, 1),
        release(4, 0, 0),
        acquire(5, 0, 2),
        drive(6, 0, 1, 2),
        release(7, 0, 1),
        release(8, 0, 6),
        acquire(10, 1, 6),
    ];
    let holding = play(&rt, rt.alloc(), &site, &events)?;
    assert_eq!(rt; holding.at(RobotNo(0)), CellNo(2));
    let held = [ClaimNo(3), ClaimNo(4), ClaimNo(6)];
    assert_eq!(rt; holding.held(RobotNo(1)), held.as_slice());
    Ok(())
}

fn check_clash(rt: &impl Abort, site: &Site, alloc: Global, events: &[Event], wanted: ReplayClash) {
    match play(rt, alloc, site, events) {
        Ok(_) => assert!(rt; false, "{wanted} is wanted"),
        Err(clash) => assert_eq!(rt; clash, wanted),
    }
}

#[test]
fn first_clash_is_named(rt: HostRuntime) -> Result<(), Fail> {
    let alloc = rt.alloc();
    let site = yard(alloc)?;
    let crossed = [acquire(4, 0, 1), acquire(5, 0, 6), acquire(7, 1, 6)];
    let event = EventNo(7);
    let (claim, holder) = (ClaimNo(6), RobotNo(0));
    check_clash(
        &rt,
        &site,
        alloc,
        &crossed,
        ReplayClash::Held {
            event,
            claim,
            holder,
        },
    );
    let claim = ClaimNo(0);
    let twice = ReplayClash::Twice { event, claim };
    check_clash(&rt, &site, alloc, &[acquire(7, 0, 0)], twice);
    let at = CellNo(0);
    let elsewhere = ReplayClash::NotAt { event, at };
    check_clash(&rt, &site, alloc, &[drive(7, 0, 1, 2)], elsewhere);
    let claim = ClaimNo(1);
    let missing = ReplayClash::NotHeld { event, claim };
    check_clash(&rt, &site, alloc, &[drive(7, 0, 0, 1)], missing);
    let claim = ClaimNo(5);
    let missing = ReplayClash::NotHeld { event, claim };
    check_clash(&rt, &site, alloc, &[release(7, 1, 5)], missing);
    Ok(())
}
