//! Each call once, with what it must answer.

use fleet_base::numbers::{CellNo, ClaimGroup, ClaimNo, Link};
use site_map::builder::SiteBuilder;
use site_map::goal::{Goal, goal_holds};
use site_map::names::ClaimName;
use site_map::refused::BuildRefused;
use site_map::site::Site;
use std::process::Abort;
use std::test::Fail;

// Seven cells in a row of lanes, two crossings that share cell 3, and flows in the second.
fn yard(rt: &impl Abort, builder: &mut SiteBuilder) -> Result<(), BuildRefused> {
    for number in 0..7u32 {
        assert_eq!(rt; builder.cell()?, CellNo(number));
    }
    assert_eq!(rt; builder.crossing(&[CellNo(3), CellNo(1)])?, 0);
    assert_eq!(rt; builder.crossing(&[CellNo(5), CellNo(3), CellNo(2)])?, 1);
    assert_eq!(rt; builder.crossing(&[CellNo(6)])?, 2);
    builder.flow(1, &[CellNo(5), CellNo(2)])?;
    assert_eq!(rt; builder.area(&[CellNo(6), CellNo(0)])?, 0);
    builder.link(CellNo(0), CellNo(2), 5)?;
    builder.link(CellNo(0), CellNo(1), 1_000_000)?;
    builder.link(CellNo(1), CellNo(0), 1)
}

fn check_counts(rt: &impl Abort, site: &Site) {
    assert_eq!(rt; site.cell_count(), 7);
    assert_eq!(rt; site.crossing_count(), 3);
    assert_eq!(rt; site.area_count(), 1);
    assert_eq!(rt; site.link_count(), 3);
    assert_eq!(rt; site.claim_count(), 11);
}

#[test]
fn site_is_as_built(rt: HostRuntime) -> Result<(), Fail> {
    let mut builder = SiteBuilder::new(rt.alloc());
    assert_eq!(rt; yard(&rt, &mut builder), Ok(()));
    let site = builder.finish();
    check_counts(&rt, &site);
    check_counts(&rt, &site.copy()?);
    assert!(rt;
        site.cell_count() == 7
            && site.crossing_count() == 3
            && site.area_count() == 1
            && site.claim_count() == 11
    );
    let links = [
        Link {
            to: CellNo(1),
            cost: 1_000_000,
        },
        Link {
            to: CellNo(2),
            cost: 5,
        },
    ];
    assert_eq!(rt; site.links(CellNo(0)), links.as_slice());
    assert_eq!(rt; site.cost(CellNo(0), CellNo(2)), Some(5));
    assert_eq!(rt; site.cost(CellNo(2), CellNo(0)), None);
    assert_eq!(rt; site.area_cells(0), [CellNo(0), CellNo(6)].as_slice());
    assert!(rt; goal_holds(&site, Goal::Area(0), CellNo(6)));
    assert!(rt; !goal_holds(&site, Goal::Cell(CellNo(1)), CellNo(6)));
    assert_eq!(rt;
        site.crossing_cells(1),
        [CellNo(2), CellNo(3), CellNo(5)].as_slice()
    );
    assert_eq!(rt; site.crossing_flows(0), 0);
    assert_eq!(rt; site.crossing_flows(1), 2);
    Ok(())
}

#[test]
fn footprints_are_the_claims_of_cells(rt: HostRuntime) {
    let mut builder = SiteBuilder::new(rt.alloc());
    assert_eq!(rt; yard(&rt, &mut builder), Ok(()));
    let site = builder.finish();
    assert_eq!(rt; site.cell_count(), 7);
    assert_eq!(rt; site.footprint(CellNo(0)).list(), [ClaimNo(0)].as_slice());
    assert_eq!(rt;
        site.footprint(CellNo(2)).list(),
        [ClaimNo(2), ClaimNo(8)].as_slice()
    );
    assert_eq!(rt;
        site.footprint(CellNo(3)).list(),
        [ClaimNo(3), ClaimNo(7), ClaimNo(9)].as_slice()
    );
    assert_eq!(rt;
        site.footprint(CellNo(6)).list(),
        [ClaimNo(6), ClaimNo(10)].as_slice()
    );
}

// A claim's group, and whether it is alone in it.
fn group(group: u32, alone: bool) -> ClaimGroup {
    ClaimGroup { group, alone }
}

#[test]
fn claims_are_grouped_by_what_they_take(rt: HostRuntime) {
    let mut builder = SiteBuilder::new(rt.alloc());
    assert_eq!(rt; yard(&rt, &mut builder), Ok(()));
    let site = builder.finish();
    assert_eq!(rt; site.cell_count(), 7);
    assert_eq!(rt; site.claim_count(), 11);
    assert_eq!(rt; site.group(ClaimNo(4)), group(4, true));
    assert_eq!(rt; site.group(ClaimNo(7)), group(7, true));
    assert_eq!(rt; site.group(ClaimNo(9)), group(8, false));
    assert!(rt; site.conflict(ClaimNo(4), ClaimNo(4)));
    assert!(rt; !site.conflict(ClaimNo(4), ClaimNo(5)));
    assert!(rt; site.conflict(ClaimNo(8), ClaimNo(9)));
    assert!(rt; !site.conflict(ClaimNo(8), ClaimNo(8)));
    assert!(rt; !site.conflict(ClaimNo(7), ClaimNo(8)));
    assert!(rt; site.conflicts_with(ClaimNo(4), &[ClaimNo(5), ClaimNo(4)]));
    assert!(rt; !site.conflicts_with(ClaimNo(4), &[ClaimNo(5), ClaimNo(6)]));
    assert!(rt; site.is_kept_from(ClaimNo(8), CellNo(3)));
    assert!(rt; !site.is_kept_from(ClaimNo(8), CellNo(0)));
}

// The name of a crossing's claim.
fn crossing(crossing: u32, flow: Option<u32>) -> ClaimName {
    ClaimName::Crossing { crossing, flow }
}

#[test]
fn claims_are_named_by_cell_crossing_and_flow(rt: HostRuntime) {
    let mut builder = SiteBuilder::new(rt.alloc());
    assert_eq!(rt; yard(&rt, &mut builder), Ok(()));
    let site = builder.finish();
    assert_eq!(rt; site.claim_count(), 11);
    assert_eq!(rt; site.claim_name(ClaimNo(4)), ClaimName::Cell(CellNo(4)));
    assert_eq!(rt; site.claim_name(ClaimNo(7)), crossing(0, None));
    assert_eq!(rt; site.claim_name(ClaimNo(9)), crossing(1, Some(1)));
    assert_eq!(rt; site.claim_name(ClaimNo(10)), crossing(2, None));
}

#[test]
fn refusals_in_order(rt: HostRuntime) {
    let mut builder = SiteBuilder::new(rt.alloc());
    assert_eq!(rt; yard(&rt, &mut builder), Ok(()));
    let (a, d, z) = (CellNo(0), CellNo(3), CellNo(7));
    assert_eq!(rt;
        builder.crossing(&[a, a, z]),
        Err(BuildRefused::UnknownCell)
    );
    assert_eq!(rt; builder.crossing(&[d, a, d]), Err(BuildRefused::Repeated));
    assert_eq!(rt;
        builder.crossing(&[a, d]),
        Err(BuildRefused::TooManyCrossings)
    );
    assert_eq!(rt; builder.area(&[z, z]), Err(BuildRefused::UnknownCell));
    assert_eq!(rt; builder.area(&[a, d, a]), Err(BuildRefused::Repeated));
    assert_eq!(rt; builder.link(z, z, 1), Err(BuildRefused::UnknownCell));
    assert_eq!(rt; builder.link(a, a, 1), Err(BuildRefused::SelfLink));
    assert_eq!(rt; builder.link(a, CellNo(1), 7), Err(BuildRefused::Linked));
    assert_eq!(rt; builder.flow(3, &[z, z]), Err(BuildRefused::UnknownCell));
    assert_eq!(rt;
        builder.flow(3, &[a, a]),
        Err(BuildRefused::UnknownCrossing)
    );
    assert_eq!(rt; builder.flow(0, &[a, a]), Err(BuildRefused::Repeated));
    assert_eq!(rt; builder.flow(0, &[a]), Err(BuildRefused::Foreign));
    assert_eq!(rt; builder.flow(1, &[CellNo(5)]), Err(BuildRefused::Foreign));
    assert_eq!(rt; builder.flow(1, &[d]), Ok(()));
}

#[test]
fn full_sites(rt: HostRuntime) {
    let mut builder = SiteBuilder::new(rt.alloc());
    for number in 0..1_024u32 {
        assert_eq!(rt; builder.cell(), Ok(CellNo(number)));
    }
    assert_eq!(rt; builder.cell(), Err(BuildRefused::Full));
    for number in 0..256u32 {
        assert_eq!(rt; builder.area(&[CellNo(number)]), Ok(number));
    }
    assert_eq!(rt; builder.area(&[CellNo(0)]), Err(BuildRefused::Full));
    for from in 0..1_024u32 {
        for step in 1..9u32 {
            let to = CellNo((from + step) % 1_024);
            assert_eq!(rt; builder.link(CellNo(from), to, step), Ok(()));
        }
    }
    assert_eq!(rt;
        builder.link(CellNo(0), CellNo(0), 1),
        Err(BuildRefused::Full)
    );
    for number in 0..255u32 {
        let cells = [CellNo(number), CellNo(number + 256)];
        assert_eq!(rt; builder.crossing(&cells), Ok(number));
    }
    assert_eq!(rt; builder.flow(0, &[CellNo(0)]), Ok(()));
    assert_eq!(rt; builder.crossing(&[CellNo(0)]), Err(BuildRefused::Full));
    assert_eq!(rt; builder.flow(1, &[CellNo(1)]), Err(BuildRefused::Full));
    assert_eq!(rt; builder.flow(1, &[CellNo(257), CellNo(1)]), Ok(()));
    assert_eq!(rt; builder.finish().claim_count(), 1_280);
}
