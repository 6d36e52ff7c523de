//! Each call once, with what it must answer.

use fleet_base::answers::{Block, EventLook, Look, PendingLook};
use fleet_base::numbers::{CellNo, ClaimNo, EventNo, Kind, RobotNo};
use fleet_base::robot_list::RobotList;
use mission_model::doing::Doing;
use robot_worker::policy::decide;
use robot_worker::routes::route_to;
use robot_worker::serving::{leg_at, serve_on};
use site_map::builder::SiteBuilder;
use site_map::goal::Goal;
use site_map::refused::BuildRefused;
use site_map::site::Site;
use std::alloc::Global;
use std::test::Fail;

// A look of a robot that rests in cell 0, with these for its next event and its pending route.
fn look(event: EventLook, pending: PendingLook) -> Look {
    Look {
        at: CellNo(0),
        end: CellNo(0),
        left: 0,
        event,
        pending,
    }
}

// A block by robot 1, with a cycle through the robots 0 and 1 or with none.
fn block(in_cycle: bool) -> Block {
    let mut cycle = RobotList::new();
    if in_cycle {
        cycle.push(RobotNo(0));
        cycle.push(RobotNo(1));
    }
    Block {
        claim: ClaimNo(2),
        by: RobotNo(1),
        cycle,
    }
}

#[test]
fn policy_picks(rt: HostRuntime) {
    let ready = EventLook::Ready {
        event: EventNo(5),
        kind: Kind::Release(ClaimNo(0)),
    };
    let waits = EventLook::Waits {
        event: EventNo(5),
        on: EventNo(3),
    };
    for (event, pending, leg_left, doing) in [
        (ready, PendingLook::Free, true, Doing::Report(EventNo(5))),
        (waits, PendingLook::Free, true, Doing::Retry),
        (EventLook::Nothing, PendingLook::Free, false, Doing::Retry),
        (
            EventLook::Nothing,
            PendingLook::Blocked(block(true)),
            true,
            Doing::Replan,
        ),
        (
            EventLook::Nothing,
            PendingLook::Blocked(block(true)),
            false,
            Doing::Rest,
        ),
        (
            EventLook::Nothing,
            PendingLook::Blocked(block(false)),
            true,
            Doing::Rest,
        ),
        (waits, PendingLook::Nothing, true, Doing::Propose),
        (waits, PendingLook::Nothing, false, Doing::Rest),
    ] {
        assert_eq!(rt; decide(&look(event, pending), leg_left), doing);
    }
}

// Cells 0, 1 and 2 in a row, with links onwards alone, and the area of the cells 1 and 2.
fn row(alloc: Global) -> Result<Site, BuildRefused> {
    let mut builder = SiteBuilder::new(alloc);
    for _ in 0..3u32 {
        builder.cell()?;
    }
    builder.link(CellNo(0), CellNo(1), 1)?;
    builder.link(CellNo(1), CellNo(2), 1)?;
    builder.area(&[CellNo(1), CellNo(2)])?;
    Ok(builder.finish())
}

#[test]
fn legs_are_served(rt: HostRuntime) -> Result<(), Fail> {
    let site = row(rt.alloc())?;
    assert!(rt; site.cell_count() == 3 && site.area_count() == 1);
    let legs = [Goal::Area(0), Goal::Cell(CellNo(2)), Goal::Cell(CellNo(0))];
    assert_eq!(rt; serve_on(&site, &legs, 0, CellNo(0)), 0);
    assert_eq!(rt; serve_on(&site, &legs, 0, CellNo(1)), 1);
    assert_eq!(rt; serve_on(&site, &legs, 0, CellNo(2)), 2);
    assert_eq!(rt; serve_on(&site, &legs, 3, CellNo(0)), 3);
    assert_eq!(rt; leg_at(&legs, 2), Some(Goal::Cell(CellNo(0))));
    assert_eq!(rt; leg_at(&legs, 3), None);
    Ok(())
}

#[test]
fn routes_lead_to_goals(rt: HostRuntime) -> Result<(), Fail> {
    let site = row(rt.alloc())?;
    assert!(rt; site.cell_count() == 3 && site.area_count() == 1);
    let there = route_to(rt.alloc(), &site, CellNo(0), Goal::Area(0))?;
    assert!(rt; there.is_some_and(|route| route.cells() == [CellNo(0), CellNo(1)].as_slice()));
    let back = route_to(rt.alloc(), &site, CellNo(1), Goal::Cell(CellNo(0)))?;
    assert!(rt; back.is_none());
    Ok(())
}
