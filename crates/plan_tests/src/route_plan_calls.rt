//! Each call once, with what it must answer.

ghost use Rattle.std.specs.Prelude.{◌<◌};

use fleet_base::numbers::CellNo;
use fleet_base::path::{NoMemory, Path};
use route_plan::cell_set::CellSet;
use route_plan::checker::check_route;
use route_plan::finder::{labels_to, least_route};
use route_plan::goals::goal_set;
use route_plan::incoming::Incoming;
use route_plan::refused::RouteRefused;
use route_plan::route::Route;
use site_map::builder::SiteBuilder;
use site_map::goal::Goal;
use site_map::refused::BuildRefused;
use site_map::site::Site;
use std::alloc::Global;
use std::test::Fail;

const LABELS: [Option<u64>; 4] = [Some(2), Some(1), Some(1), Some(0)];

// Cells a, b, c and d with the numbers 0 to 3, and links a-b, a-c, b-d and c-d of cost 1.
fn square(alloc: Global) -> Result<Site, BuildRefused> {
    let mut builder = SiteBuilder::new(alloc);
    for _ in 0..4u32 {
        builder.cell()?;
    }
    for (from, to) in [(0, 1), (0, 2), (1, 3), (2, 3)] {
        builder.link(CellNo(from), CellNo(to), 1)?;
    }
    Ok(builder.finish())
}

fn only(cell: u32) -> CellSet
    requires { cell < 1024 }
{
    let mut set = CellSet::new();
    set.put(CellNo(cell));
    set
}

fn route_of(
    cells: [u32; 3],
    cost: u64,
    labels: &[Option<u64>],
    alloc: Global,
) -> Result<Route, NoMemory> {
    let [first, second, third] = cells;
    let path = Path::copy_of(alloc, &[CellNo(first), CellNo(second), CellNo(third)])?;
    Route::given(path, cost, labels, alloc)
}

#[test]
fn right_parts_are_accepted(rt: HostRuntime) -> Result<(), Fail> {
    let site = square(rt.alloc())?;
    assert_eq!(rt; site.cell_count(), 4);
    let route = route_of([0, 1, 3], 2, &LABELS, rt.alloc())?;
    assert!(rt; check_route(&site, CellNo(0), &only(3), &CellSet::new(), &route));
    assert!(rt; !check_route(&site, CellNo(1), &only(3), &CellSet::new(), &route));
    assert!(rt; !check_route(&site, CellNo(0), &only(1), &CellSet::new(), &route));
    assert!(rt; !check_route(&site, CellNo(0), &only(3), &only(2), &route));
    Ok(())
}

#[test]
fn each_changed_part_is_refused(rt: HostRuntime) -> Result<(), Fail> {
    let site = square(rt.alloc())?;
    assert_eq!(rt; site.cell_count(), 4);
    for cells in [
        [1, 1, 3],
        [2, 1, 3],
        [0, 0, 3],
        [0, 2, 3],
        [0, 9, 3],
        [0, 1, 2],
        [0, 1, 9],
    ] {
        let route = route_of(cells, 2, &LABELS, rt.alloc())?;
        assert!(rt; !check_route(&site, CellNo(0), &only(3), &CellSet::new(), &route));
    }
    for cost in [0, 1, 3, u64::MAX] {
        let route = route_of([0, 1, 3], cost, &LABELS, rt.alloc())?;
        assert!(rt; !check_route(&site, CellNo(0), &only(3), &CellSet::new(), &route));
    }
    for labels in [
        [Some(1), Some(1), Some(1), Some(0)],
        [Some(3), Some(1), Some(1), Some(0)],
        [None, Some(1), Some(1), Some(0)],
        [Some(2), Some(0), Some(1), Some(0)],
        [Some(2), Some(2), Some(1), Some(0)],
        [Some(2), None, Some(1), Some(0)],
        [Some(2), Some(1), Some(0), Some(0)],
        [Some(2), Some(1), Some(2), Some(0)],
        [Some(2), Some(1), None, Some(0)],
        [Some(2), Some(1), Some(1), Some(1)],
        [Some(2), Some(1), Some(1), None],
    ] {
        let route = route_of([0, 1, 3], 2, &labels, rt.alloc())?;
        assert!(rt; !check_route(&site, CellNo(0), &only(3), &CellSet::new(), &route));
    }
    let more = [Some(2), Some(1), Some(1), Some(0), Some(0)];
    let route = route_of([0, 1, 3], 2, &more, rt.alloc())?;
    assert!(rt; !check_route(&site, CellNo(0), &only(3), &CellSet::new(), &route));
    Ok(())
}

#[test]
fn labels_are_told_for_each_goal(rt: HostRuntime) -> Result<(), Fail> {
    let site = square(rt.alloc())?;
    let incoming = Incoming::of(&site, rt.alloc())?;
    let labels = labels_to(&site, &incoming, &only(3), &CellSet::new(), rt.alloc())?;
    for number in 0..4u32 {
        assert_eq!(rt; labels.label(CellNo(number)), LABELS[number as usize]);
    }
    let labels = labels_to(&site, &incoming, &only(1), &only(2), rt.alloc())?;
    assert_eq!(rt; labels.label(CellNo(0)), Some(1));
    assert_eq!(rt; labels.label(CellNo(2)), None);
    Ok(())
}

// The least route across the square; want of memory also where there is no such cell.
fn found(from: u32, goal: u32, avoid: &CellSet, alloc: Global) -> Result<Route, RouteRefused>
    requires { goal < 1024 }
{
    let Ok(site) = square(alloc) else {
        return Err(RouteRefused::NoMemory);
    };
    if from >= site.cell_count() {
        return Err(RouteRefused::NoMemory);
    }
    least_route(&site, CellNo(from), &only(goal), avoid, alloc)
}

#[test]
fn path_cost_and_labels_are_found(rt: HostRuntime) -> Result<(), Fail> {
    let route = found(0, 3, &CellSet::new(), rt.alloc())?;
    assert_eq!(rt; route.cells(), [CellNo(0), CellNo(1), CellNo(3)].as_slice());
    assert_eq!(rt; route.cost(), 2);
    for (cell, label) in [
        (0, Some(2)),
        (1, Some(1)),
        (2, Some(1)),
        (3, Some(0)),
        (4, None),
    ] {
        assert_eq!(rt; route.label(CellNo(cell)), label);
    }
    Ok(())
}

#[test]
fn way_round_and_no_way_are_found(rt: HostRuntime) -> Result<(), Fail> {
    let round = found(0, 3, &only(1), rt.alloc())?;
    assert_eq!(rt; round.cells(), [CellNo(0), CellNo(2), CellNo(3)].as_slice());
    assert_eq!(rt; round.label(CellNo(1)), None);
    let stay = found(0, 0, &CellSet::new(), rt.alloc())?;
    assert_eq!(rt; stay.cells(), [CellNo(0)].as_slice());
    let none = found(3, 0, &CellSet::new(), rt.alloc());
    assert!(rt; matches!(none, Err(RouteRefused::Unreachable)));
    Ok(())
}

// Whether the cell of this number is in the set.
fn holds(set: &CellSet, number: u32) -> bool {
    number < 1_024 && set.holds(CellNo(number))
}

#[test]
fn a_goal_is_the_set_of_its_cells(rt: HostRuntime) -> Result<(), Fail> {
    let mut builder = SiteBuilder::new(rt.alloc());
    for _ in 0..4u32 {
        builder.cell()?;
    }
    builder.area(&[CellNo(3), CellNo(1)])?;
    let site = builder.finish();
    assert!(rt; site.cell_count() == 4 && site.area_count() == 1);
    let cell = goal_set(&site, Goal::Cell(CellNo(2)));
    let area = goal_set(&site, Goal::Area(0));
    for (number, in_cell, in_area) in [
        (0, false, false),
        (1, false, true),
        (2, true, false),
        (3, false, true),
    ] {
        assert_eq!(rt; holds(&cell, number), in_cell);
        assert_eq!(rt; holds(&area, number), in_area);
    }
    Ok(())
}
