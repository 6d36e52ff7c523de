//! A robot that drives from one cell to the next, and one that stays.

ghost use Rattle.std.specs.Prelude.{◌≡◌, ◌<◌, length};

use fleet_base::numbers::{CellNo, ClaimNo, Kind, RobotNo};
use robot_tables::tables::RobotTables;
use site_map::builder::SiteBuilder;
use site_map::refused::BuildRefused;
use site_map::site::Site;
use std::alloc::Global;
use std::process::Abort;
use std::test::Fail;

// Three cells, the second of which is in a crossing. The crossing has claim 3.
fn yard(alloc: Global) -> Result<Site, BuildRefused> {
    let mut builder = SiteBuilder::new(alloc);
    for _ in 0..3u32 {
        builder.cell()?;
    }
    builder.crossing(&[CellNo(1)])?;
    Ok(builder.finish())
}

// The robot acquires the claim, for which there is a place.
fn acquire(rt: &impl Abort, robots: &mut RobotTables, robot: RobotNo, claim: ClaimNo)
    requires { robot.0 < length robots.old.ends }
    ensures { length robots.new.ends ≡ length robots.old.ends }
{
    let held = robots.held(robot).list();
    assert!(rt; !held.contains(&claim));
    assert!(rt; held.len() < 6);
    robots.report(robot, Kind::Acquire(claim));
}

fn check_spot(rt: &impl Abort, robots: &RobotTables, robot: RobotNo, cell: u32, held: &[ClaimNo])
    requires { robot.0 < length robots.now.ends }
{
    assert_eq!(rt; robots.at(robot), CellNo(cell));
    assert_eq!(rt; robots.held(robot).list(), held);
}

#[test]
fn robot_drives_on(rt: HostRuntime) -> Result<(), Fail> {
    let alloc = rt.alloc();
    let site = yard(alloc)?;
    assert!(rt; site.cell_count() == 3);
    let mut robots = RobotTables::new(alloc, &site, &[CellNo(0), CellNo(2)])?;
    assert_eq!(rt; robots.count(), 2);
    let (first, second) = (RobotNo(0), RobotNo(1));
    check_spot(&rt, &robots, first, 0, &[ClaimNo(0)]);
    robots.set_end(first, CellNo(1));
    assert_eq!(rt; robots.end(first), CellNo(1));
    assert_eq!(rt; robots.end(second), CellNo(2));
    acquire(&rt, &mut robots, first, ClaimNo(3));
    acquire(&rt, &mut robots, first, ClaimNo(1));
    robots.report(first, Kind::Move(CellNo(0), CellNo(1)));
    robots.report(first, Kind::Release(ClaimNo(0)));
    check_spot(&rt, &robots, first, 1, &[ClaimNo(1), ClaimNo(3)]);
    check_spot(&rt, &robots, second, 2, &[ClaimNo(2)]);
    assert_eq!(rt; robots.end(first), CellNo(1));
    assert_eq!(rt; robots.end(second), CellNo(2));
    Ok(())
}
