//! Cycles of two, three and five robots, two that share a robot, one that leads to another robot, and
//! none.

use cycle_cert::{check_cycle, cycle_through};
use fleet_base::edges::Edges;
use fleet_base::numbers::RobotNo;
use fleet_base::robot_list::RobotList;

#[test]
fn finds_cycles(rt: HostRuntime) {
    let mut edges = Edges::new();
    for (from, to) in [
        (0, 1),
        (1, 0),
        (1, 2),
        (2, 3),
        (3, 1),
        (10, 63),
        (63, 12),
        (12, 11),
        (11, 14),
        (14, 10),
        (20, 20),
        (30, 0),
        (40, 41),
        (41, 40),
        (41, 42),
        (42, 43),
    ] {
        assert!(rt; from < 64 && to < 64);
        edges.set(RobotNo(from), RobotNo(to), true);
    }
    for (robot, length, second, last) in [
        (0, 2, Some(RobotNo(1)), Some(RobotNo(1))),
        (1, 2, Some(RobotNo(0)), Some(RobotNo(0))),
        (2, 3, Some(RobotNo(3)), Some(RobotNo(1))),
        (63, 5, Some(RobotNo(12)), Some(RobotNo(10))),
        (20, 1, None, Some(RobotNo(20))),
        (30, 0, None, None),
        (42, 0, None, None),
    ] {
        assert!(rt; robot < 64);
        let cycle = cycle_through(&edges, RobotNo(robot));
        assert_eq!(rt; cycle.len(), length, "through {robot}");
        assert_eq!(rt; cycle.get(1), second, "through {robot}");
        if length > 0 {
            assert_eq!(rt; cycle.get(0), Some(RobotNo(robot)), "through {robot}");
            assert_eq!(rt; cycle.get(length - 1), last, "through {robot}");
        }
        assert_eq!(rt; check_cycle(&edges, &cycle), length > 0, "through {robot}");
    }
}

#[test]
fn finds_least_of_shortest(rt: HostRuntime) {
    let mut edges = Edges::new();
    for (from, to) in [(5, 9), (9, 7), (9, 8), (5, 6), (6, 8), (7, 5), (8, 5)] {
        assert!(rt; from < 64 && to < 64);
        edges.set(RobotNo(from), RobotNo(to), true);
    }
    let cycle = cycle_through(&edges, RobotNo(5));
    assert_eq!(rt; cycle.len(), 3);
    assert_eq!(rt; cycle.get(1), Some(RobotNo(6)));
    assert_eq!(rt; cycle.get(2), Some(RobotNo(8)));
}

#[test]
fn checks_cycles(rt: HostRuntime) {
    let mut edges = Edges::new();
    for (from, to) in [(0, 1), (1, 2), (2, 0), (2, 1)] {
        assert!(rt; from < 64 && to < 64);
        edges.set(RobotNo(from), RobotNo(to), true);
    }
    for (robots, right) in [
        ([0, 1, 2, 64], true),
        ([1, 2, 64, 64], true),
        ([0, 1, 64, 64], false),
        ([0, 1, 2, 1], false),
        ([2, 1, 0, 64], false),
        ([64, 64, 64, 64], false),
    ] {
        let mut cycle = RobotList::new();
        for robot in robots {
            if robot < 64 && cycle.len() < 64 {
                cycle.push(RobotNo(robot));
            }
        }
        assert_eq!(rt; check_cycle(&edges, &cycle), right);
    }
}
