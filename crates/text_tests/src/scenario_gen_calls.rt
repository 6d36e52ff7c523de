// The scenario of a number, with ample memory.

use fleet_base::numbers::{CellNo, RobotNo};
use scenario_gen::generate::generate;
use site_map::goal::Goal;
use std::test::Fail;

#[test]
fn seven_gives_its_counts(rt: HostRuntime) -> Result<(), Fail> {
    let scenario = generate(rt.alloc(), 7)?;
    let site = scenario.site();
    assert_eq!(rt; site.cell_count(), 140);
    assert_eq!(rt; site.crossing_count(), 6);
    assert_eq!(rt; site.area_count(), 2);
    assert_eq!(rt; site.link_count(), 256);
    assert_eq!(rt; scenario.starts().len(), 9);
    Ok(())
}

#[test]
fn seven_gives_its_missions(rt: HostRuntime) -> Result<(), Fail> {
    let scenario = generate(rt.alloc(), 7)?;
    let missions = scenario.missions();
    assert!(rt; missions.robot_count() > 2);
    assert_eq!(rt;
        missions.legs(RobotNo(1)),
        [Goal::Cell(CellNo(77))].as_slice()
    );
    assert_eq!(rt;
        missions.legs(RobotNo(2)),
        [Goal::Area(0), Goal::Cell(CellNo(125)), Goal::Area(0)].as_slice()
    );
    Ok(())
}
