//! The laws at a coordinator that is handed in, and what its graph keeps.

ghost use Rattle.std.specs.Prelude.{◌≡◌, ◌≢◌, ◌↔◌, Err};
ghost use Rattle.fleet_base.specs.declared.answers.ProposeRefused.TheVariants.{Full, NoMemory};
ghost use Rattle.fleet_model.specs.Plans.{IsAllowed};
ghost use Rattle.fleet_model.specs.Sound.{CanInsert};
ghost use Rattle.call_laws.specs.Proposals.{IsMerged, MayPropose};
ghost use Rattle.coordinator.specs.Books.{state_of};

use crate::junction::junction;
use book_laws::laws::{allowed_orders_are_accepted, deferral_is_exact};
use coordinator::coordinator::Coordinator;
use fleet_base::answers::{ProposeRefused, Proposed};
use fleet_base::numbers::{CellNo, Event, EventNo, RobotNo};
use site_map::builder::SiteBuilder;
use site_map::site::Site;
use std::alloc::Global;
use std::test::Fail;

// With room and memory a legal route is merged exactly where some insertion of it is safe.
fn propose_exactly(
    fleet: &mut Coordinator,
    robot: RobotNo,
    cells: &[CellNo],
) -> Result<Proposed, ProposeRefused>
    ensures { MayPropose (state_of fleet.old) robot.0 cells.now → result ≢ Err Full → result ≢ Err NoMemory →
        IsMerged result ↔ CanInsert (state_of fleet.old) robot.0 cells.now }
{
    deferral_is_exact(fleet);
    fleet.propose(robot, cells)
}

// No report of an allowed order is refused.
fn report_all(fleet: &mut Coordinator, order: &[Event])
    requires { IsAllowed (state_of fleet.old).fleet order.now }
{
    for event in order {
        allowed_orders_are_accepted(fleet);
        match fleet.report(event.robot, event.no) {
            Ok(()) => {}
            Err(_) => unreachable!(),
        }
    }
}

#[test]
fn laws_hold_of_any_coordinator(rt: HostRuntime) -> Result<(), Fail> {
    let mut builder = SiteBuilder::new(rt.alloc());
    builder.cell()?;
    builder.cell()?;
    builder.link(CellNo(0), CellNo(1), 1)?;
    let site = builder.finish();
    assert!(rt; site.cell_count() == 2);
    let mut fleet = Coordinator::new(rt.alloc(), site, &[CellNo(0)], 4)?;
    let merged = propose_exactly(&mut fleet, RobotNo(0), &[CellNo(0), CellNo(1)]);
    assert!(rt; matches!(merged, Ok(Proposed::Merged(_))));
    report_all(&mut fleet, &[]);
    assert_eq!(rt; fleet.owed(), 3);
    Ok(())
}

// The calls of robots, without what their contracts tell: a test looks at their answers alone.

fn is_merged(fleet: &mut Coordinator, robot: RobotNo, cells: &[CellNo]) -> bool {
    matches!(fleet.propose(robot, cells), Ok(Proposed::Merged(_)))
}

fn is_reported(fleet: &mut Coordinator, robot: RobotNo, event: EventNo) -> bool {
    fleet.report(robot, event).is_ok()
}

fn kept(fleet: &Coordinator) -> u64 {
    fleet.graph().kept()
}

#[test]
fn the_graph_keeps_unfinished_events_alone(rt: HostRuntime) -> Result<(), Fail> {
    let site = junction(rt.alloc())?;
    assert!(rt; site.cell_count() == 4);
    let mut fleet = Coordinator::new(rt.alloc(), site, &[CellNo(0), CellNo(3)], 100)?;
    let (first, second) = (RobotNo(0), RobotNo(1));
    assert!(rt; is_merged(&mut fleet, first, &[CellNo(0), CellNo(1), CellNo(2)]));
    assert!(rt; is_merged(&mut fleet, second, &[CellNo(3), CellNo(1)]));
    assert_eq!(rt; kept(&fleet), 9);
    for event in 1..=6 {
        assert!(rt; is_reported(&mut fleet, first, EventNo(event)));
    }
    assert_eq!(rt; kept(&fleet), 3);
    Ok(())
}
