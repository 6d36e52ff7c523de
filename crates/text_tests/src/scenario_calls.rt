// Each call that needs no reader once, with ample memory.
use fleet_base::numbers::{CellNo, RobotNo};
use scenario::missions::Missions;
use scenario::scenario::Goal;
use std::test::Fail;

#[test]
fn missions_keep_legs_in_order(rt: HostRuntime) -> Result<(), Fail> {
    let mut missions = Missions::new(rt.alloc(), 2).map_err(|_| "memory")?;
    let legs = [Goal::Area(7), Goal::Cell(CellNo(1))];
    missions.add(RobotNo(1), legs[0]).map_err(|_| "memory")?;
    missions.add(RobotNo(1), legs[1]).map_err(|_| "memory")?;
    assert!(rt; missions.legs(RobotNo(0)).is_empty());
    assert_eq!(rt; missions.legs(RobotNo(1)), legs.as_slice());
    Ok(())
}
