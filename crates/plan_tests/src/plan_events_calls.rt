//! Each call once, with what it must answer.

use fleet_base::numbers::{CellNo, ClaimNo, Kind};
use plan_events::expansion::{expand, needs};
use plan_events::refused::ShapeRefused;
use plan_events::rests::rest_before;
use plan_events::shape::check_shape;
use site_map::builder::SiteBuilder;
use site_map::refused::BuildRefused;
use site_map::site::Site;
use std::alloc::Global;
use std::test::Fail;

// Cells a, p, b, c, q, d with the numbers 0 to 5, lanes a-p, p-b, c-q and q-d, and a crossing with
// the cells p and q, which has claim 6.
fn yard(alloc: Global) -> Result<Site, BuildRefused> {
    let mut builder = SiteBuilder::new(alloc);
    for _ in 0..6u32 {
        builder.cell()?;
    }
    builder.crossing(&[CellNo(1), CellNo(4)])?;
    for (one, other) in [(0, 1), (1, 2), (3, 4), (4, 5)] {
        builder.link(CellNo(one), CellNo(other), 1)?;
        builder.link(CellNo(other), CellNo(one), 1)?;
    }
    Ok(builder.finish())
}

#[test]
fn first_fault_of_a_shape_is_named(rt: HostRuntime) -> Result<(), Fail> {
    let site = yard(rt.alloc())?;
    assert_eq!(rt; check_shape(&site, &[]), Err(ShapeRefused::Short));
    assert_eq!(rt; check_shape(&site, &[CellNo(9)]), Err(ShapeRefused::Short));
    let long = vec![in rt.alloc(); CellNo(9); 1_025]?;
    assert_eq!(rt; check_shape(&site, &long), Err(ShapeRefused::TooLong));
    let unknown = [CellNo(0), CellNo(2), CellNo(6), CellNo(7)];
    assert_eq!(rt;
        check_shape(&site, &unknown),
        Err(ShapeRefused::UnknownCell { at: 2 })
    );
    let apart = [CellNo(0), CellNo(1), CellNo(3), CellNo(5)];
    assert_eq!(rt;
        check_shape(&site, &apart),
        Err(ShapeRefused::NoLink { at: 2 })
    );
    let round = [CellNo(0), CellNo(1), CellNo(0)];
    assert_eq!(rt; check_shape(&site, &round), Ok(8));
    Ok(())
}

#[test]
fn crossing_is_acquired_once(rt: HostRuntime) -> Result<(), Fail> {
    let site = yard(rt.alloc())?;
    let kinds = expand(rt.alloc(), &site, &[CellNo(0), CellNo(1), CellNo(2)])?;
    let wanted = [
        Kind::Acquire(ClaimNo(1)),
        Kind::Acquire(ClaimNo(6)),
        Kind::Move(CellNo(0), CellNo(1)),
        Kind::Release(ClaimNo(0)),
        Kind::Acquire(ClaimNo(2)),
        Kind::Move(CellNo(1), CellNo(2)),
        Kind::Release(ClaimNo(1)),
        Kind::Release(ClaimNo(6)),
    ];
    assert_eq!(rt; kinds.as_slice(), wanted.as_slice());
    for place in 0..9 {
        let rests = rest_before(&wanted, place);
        assert_eq!(rt; rests, place == 0 || place == 4 || place == 8, "at {place}");
    }
    Ok(())
}

#[test]
fn expansion_is_refused_as_the_shape_is(rt: HostRuntime) -> Result<(), Fail> {
    let site = yard(rt.alloc())?;
    let refused = expand(rt.alloc(), &site, &[CellNo(0), CellNo(2)]);
    assert!(rt; matches!(refused, Err(ShapeRefused::NoLink { at: 1 })));
    Ok(())
}

#[test]
fn route_needs_what_it_acquires(rt: HostRuntime) -> Result<(), Fail> {
    let site = yard(rt.alloc())?;
    let route = [CellNo(0), CellNo(1), CellNo(2)];
    assert_eq!(rt; check_shape(&site, &route)?, 8);
    let claims = needs(&site, &route);
    for (number, needed) in [
        (0, false),
        (1, true),
        (2, true),
        (4, false),
        (6, true),
        (1_279, false),
    ] {
        assert_eq!(rt; claims.holds(ClaimNo(number)), needed, "claim {number}");
    }
    Ok(())
}
