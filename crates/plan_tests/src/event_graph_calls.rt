//! A small plan of three robots, through each call.

ghost use Rattle.std.specs.Prelude.{◌≡◌, IfOk};
ghost use Rattle.event_graph.specs.Example.{IsExample, example_groups};

use event_graph::graph::EventGraph;
use fleet_base::numbers::{CellNo, ClaimGroup, ClaimNo, Event, EventNo, Kind, RobotNo};
use fleet_base::path::NoMemory;
use std::alloc::Global;
use std::test::Fail;

// Five claims, each alone in its group.
fn alone_groups() -> [ClaimGroup; 5]
    ensures { result ≡ example_groups }
{
    [
        ClaimGroup {
            group: 0,
            alone: true,
        },
        ClaimGroup {
            group: 1,
            alone: true,
        },
        ClaimGroup {
            group: 2,
            alone: true,
        },
        ClaimGroup {
            group: 3,
            alone: true,
        },
        ClaimGroup {
            group: 4,
            alone: true,
        },
    ]
}

// Cells 0 to 4, each with one claim. Robot 0 goes from 0 over 1 to 2, then robot 1 from 3 to 1, and
// robot 2 from 4 to 0.
fn example(alloc: Global) -> Result<EventGraph, NoMemory>
    ensures { IfOk result IsExample }
{
    let over = [
        Kind::Acquire(ClaimNo(1)),
        Kind::Move(CellNo(0), CellNo(1)),
        Kind::Release(ClaimNo(0)),
        Kind::Acquire(ClaimNo(2)),
        Kind::Move(CellNo(1), CellNo(2)),
        Kind::Release(ClaimNo(1)),
    ];
    let behind = [
        Kind::Acquire(ClaimNo(1)),
        Kind::Move(CellNo(3), CellNo(1)),
        Kind::Release(ClaimNo(3)),
    ];
    let back = [
        Kind::Acquire(ClaimNo(0)),
        Kind::Move(CellNo(4), CellNo(0)),
        Kind::Release(ClaimNo(4)),
    ];
    let mut graph = EventGraph::new(alloc, 3, &alone_groups(), EventNo(1))?;
    graph.reserve(&over)?;
    graph.append(RobotNo(0), &over);
    graph.reserve(&behind)?;
    graph.append(RobotNo(1), &behind);
    graph.reserve(&back)?;
    graph.append(RobotNo(2), &back);
    Ok(graph)
}

#[test]
fn graph_answers(rt: HostRuntime) -> Result<(), Fail> {
    let graph = example(rt.alloc())?;
    let second = Event {
        no: EventNo(7),
        robot: RobotNo(1),
        kind: Kind::Acquire(ClaimNo(1)),
    };
    assert_eq!(rt; graph.kept(), 12);
    assert_eq!(rt; graph.next_number(), EventNo(13));
    assert_eq!(rt; graph.next(RobotNo(1)), Some(second));
    assert_eq!(rt; graph.unfinished(RobotNo(1), 0), Some(second));
    assert_eq!(rt; graph.unfinished(RobotNo(1), 3), None);
    assert_eq!(rt; graph.left(RobotNo(0)), 6);
    assert!(rt; graph.ready(EventNo(1)));
    assert!(rt; !graph.ready(EventNo(2)));
    assert!(rt; !graph.ready(EventNo(7)));
    assert_eq!(rt; graph.greatest_before(EventNo(7)), Some(EventNo(6)));
    assert_eq!(rt; graph.greatest_before(EventNo(10)), Some(EventNo(3)));
    assert_eq!(rt; graph.greatest_before(EventNo(4)), None);
    assert!(rt; graph.awaited(EventNo(3)));
    assert!(rt; !graph.awaited(EventNo(9)));
    Ok(())
}

#[test]
fn graph_changes(rt: HostRuntime) -> Result<(), Fail> {
    let mut graph = example(rt.alloc())?;
    graph.finish(EventNo(1));
    assert_eq!(rt; graph.kept(), 11);
    assert_eq!(rt; graph.left(RobotNo(0)), 5);
    graph.cut_tail(RobotNo(2), 2);
    assert_eq!(rt; graph.kept(), 9);
    let only = Event {
        no: EventNo(10),
        robot: RobotNo(2),
        kind: Kind::Acquire(ClaimNo(0)),
    };
    assert_eq!(rt; graph.next(RobotNo(2)), Some(only));
    assert_eq!(rt; graph.unfinished(RobotNo(2), 1), None);
    Ok(())
}
