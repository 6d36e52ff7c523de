//! What robots on a row of cells may take back.

ghost use Rattle.std.specs.Prelude.{◌≡◌, ◌++◌, IfOk, OnOk};
ghost use Rattle.fleet_model.specs.Plans.{numbered};
ghost use Rattle.site_map.specs.Claims.{site_of};
ghost use Rattle.event_graph.specs.Example.{behind, example_groups, over};
ghost use Rattle.merge_op.specs.Plan.{IsPlan};

use event_graph::graph::EventGraph;
use fleet_base::numbers::{CellNo, ClaimGroup, ClaimNo, EventNo, Kind, RobotNo, Span};
use fleet_base::path::NoMemory;
use merge_op::merging::merge;
use merge_op::withdrawal::removable;
use site_map::builder::SiteBuilder;
use site_map::refused::BuildRefused;
use site_map::site::Site;
use std::alloc::Global;
use std::process::Abort;
use std::test::Fail;

// Five cells.
fn row(alloc: Global) -> Result<Site, BuildRefused> {
    let mut builder = SiteBuilder::new(alloc);
    for _ in 0..5u32 {
        builder.cell()?;
    }
    Ok(builder.finish())
}

// Five claims, each alone in its group.
fn alone_groups() -> [ClaimGroup; 5]
    ensures { result ≡ example_groups }
{
    let mut groups = [ClaimGroup {
        group: 0,
        alone: true,
    }; 5];
    groups[1].group = 1;
    groups[2].group = 2;
    groups[3].group = 3;
    groups[4].group = 4;
    groups
}

// The groups of the site's claims are these.
fn check_groups(rt: &impl Abort, site: &Site)
    ensures { (site_of site.now).groups ≡ example_groups }
{
    let groups = alone_groups();
    assert!(rt; site.claim_count() == 5);
    for (number, group) in groups.iter().enumerate() {
        assert!(rt; site.group(ClaimNo(number as u32)) == *group);
    }
}

// Robot 0 goes from cell 0 over 1 to 2.
fn plan_over(alloc: Global) -> Result<EventGraph, NoMemory>
    ensures { IfOk result (λ g. IsPlan g 7 (numbered 1 0 over)) }
{
    let kinds = [
        Kind::Acquire(ClaimNo(1)),
        Kind::Move(CellNo(0), CellNo(1)),
        Kind::Release(ClaimNo(0)),
        Kind::Acquire(ClaimNo(2)),
        Kind::Move(CellNo(1), CellNo(2)),
        Kind::Release(ClaimNo(1)),
    ];
    let mut graph = EventGraph::new(alloc, 2, &alone_groups(), EventNo(1))?;
    merge(&mut graph, RobotNo(0), &kinds)?;
    Ok(graph)
}

// Robot 1 goes from cell 3 to 1, behind robot 0.
fn merge_behind(graph: &mut EventGraph) -> Result<Span, NoMemory>
    requires { IsPlan graph.old 7 (numbered 1 0 over) }
    ensures { OnOk result (IsPlan graph.new 10 (numbered 1 0 over ++ numbered 7 1 behind)) }
{
    let kinds = [
        Kind::Acquire(ClaimNo(1)),
        Kind::Move(CellNo(3), CellNo(1)),
        Kind::Release(ClaimNo(3)),
    ];
    merge(graph, RobotNo(1), &kinds)
}

#[test]
fn what_another_waits_for_stays(rt: HostRuntime) -> Result<(), Fail> {
    let site = row(rt.alloc())?;
    check_groups(&rt, &site);
    let mut graph = plan_over(rt.alloc())?;
    assert_eq!(rt; removable(&site, &graph, RobotNo(0)), 6);
    assert_eq!(rt; removable(&site, &graph, RobotNo(1)), 0);
    let span = merge_behind(&mut graph)?;
    assert_eq!(rt; (span.first, span.last), (EventNo(7), EventNo(9)));
    assert_eq!(rt; removable(&site, &graph, RobotNo(0)), 0);
    assert_eq!(rt; removable(&site, &graph, RobotNo(1)), 3);
    Ok(())
}

#[test]
fn begun_step_stays(rt: HostRuntime) -> Result<(), Fail> {
    let site = row(rt.alloc())?;
    check_groups(&rt, &site);
    let mut graph = plan_over(rt.alloc())?;
    graph.finish(EventNo(1));
    assert_eq!(rt; removable(&site, &graph, RobotNo(0)), 3);
    Ok(())
}
