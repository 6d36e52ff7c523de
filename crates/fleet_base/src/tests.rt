//! Each call of the lists and sets once, with what it must answer.

use crate::claim_set::ClaimSet;
use crate::claims::Claims;
use crate::edges::Edges;
use crate::held::Held;
use crate::limits::MAX_CLAIMS;
use crate::numbers::{CellNo, ClaimNo, RobotNo};
use crate::path::Path;
use crate::robot_list::RobotList;
use std::test::Fail;

#[test]
fn robots_in_order(rt: HostRuntime) {
    let mut robots = RobotList::new();
    assert!(rt; robots.is_empty());
    robots.push(RobotNo(63));
    robots.push(RobotNo(0));
    assert_eq!(rt; robots.len(), 2);
    assert_eq!(rt; robots.get(0), Some(RobotNo(63)));
    assert_eq!(rt; robots.get(1), Some(RobotNo(0)));
    assert_eq!(rt; robots.get(2), None);
}

#[test]
fn path_of_cells(rt: HostRuntime) -> Result<(), Fail> {
    let cells = [CellNo(4), CellNo(5), CellNo(4)];
    let path = Path::copy_of(rt.alloc(), &cells)?;
    assert_eq!(rt; path.cells(), cells.as_slice());
    let again = Path::from_vec(path.into_vec());
    assert_eq!(rt; again.cells(), cells.as_slice());
    Ok(())
}

#[test]
fn claims_ascend(rt: HostRuntime) {
    let mut claims = Claims::new(rt.alloc());
    claims.put(ClaimNo(1_024));
    claims.put(ClaimNo(7));
    claims.put(ClaimNo(300));
    let wanted = [ClaimNo(7), ClaimNo(300), ClaimNo(1_024)];
    assert_eq!(rt; claims.list(), wanted.as_slice());
}

#[test]
fn held_claims_ascend(rt: HostRuntime) {
    let mut held = Held::new();
    held.put(ClaimNo(5));
    held.put(ClaimNo(9));
    held.put(ClaimNo(0));
    held.put(ClaimNo(6));
    let wanted = [ClaimNo(0), ClaimNo(5), ClaimNo(6), ClaimNo(9)];
    assert_eq!(rt; held.list(), wanted.as_slice());
    held.remove(ClaimNo(5));
    held.remove(ClaimNo(7));
    let wanted = [ClaimNo(0), ClaimNo(6), ClaimNo(9)];
    assert_eq!(rt; held.list(), wanted.as_slice());
}

#[test]
fn set_of_claims(rt: HostRuntime) {
    let mut claims = ClaimSet::new();
    claims.put(ClaimNo(MAX_CLAIMS - 1));
    claims.put(ClaimNo(0));
    assert!(rt; claims.holds(ClaimNo(1_279)));
    assert!(rt; claims.holds(ClaimNo(0)));
    assert!(rt; !claims.holds(ClaimNo(1_278)));
    assert_eq!(rt; claims.next(ClaimNo(0)), Some(ClaimNo(0)));
    assert_eq!(rt; claims.next(ClaimNo(1)), Some(ClaimNo(1_279)));
    assert_eq!(rt; claims.next(ClaimNo(1_280)), None);
}

#[test]
fn edges_lead_one_way(rt: HostRuntime) {
    let mut edges = Edges::new();
    edges.set(RobotNo(3), RobotNo(63), true);
    edges.set(RobotNo(4), RobotNo(0), true);
    edges.set(RobotNo(4), RobotNo(0), false);
    assert!(rt; edges.has(RobotNo(3), RobotNo(63)));
    assert!(rt; !edges.has(RobotNo(63), RobotNo(3)));
    assert!(rt; !edges.has(RobotNo(4), RobotNo(0)));
    assert_eq!(rt; edges.row(RobotNo(3)), 1 << 63);
    assert_eq!(rt; edges.row(RobotNo(4)), 0);
}
