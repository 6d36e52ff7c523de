//! Claims of cells, and two groups of claims that lie between one another.

use claim_reach::{Reach, conflict, reaches};
use fleet_base::numbers::{ClaimGroup, ClaimNo};
use std::test::Fail;

#[test]
fn reaches_hold_groups(rt: HostRuntime) -> Result<(), Fail> {
    let cell = ClaimGroup {
        group: 0,
        alone: true,
    };
    let one = ClaimGroup {
        group: 9,
        alone: false,
    };
    let other = ClaimGroup {
        group: 7,
        alone: true,
    };
    let groups = [cell, one, other, one, other, one];
    let reaches = reaches(rt.alloc(), &groups)?;
    let of_one = Reach { first: 1, end: 6 };
    let of_other = Reach { first: 2, end: 5 };
    let whole = [
        Reach { first: 0, end: 1 },
        of_one,
        of_other,
        of_one,
        of_other,
        of_one,
    ];
    assert_eq!(rt; reaches.as_slice(), whole.as_slice());
    assert!(rt; conflict(&groups, ClaimNo(0), ClaimNo(0)));
    assert!(rt; !conflict(&groups, ClaimNo(0), ClaimNo(1)));
    assert!(rt; !conflict(&groups, ClaimNo(1), ClaimNo(1)));
    assert!(rt; conflict(&groups, ClaimNo(1), ClaimNo(5)));
    assert!(rt; !conflict(&groups, ClaimNo(6), ClaimNo(6)));
    Ok(())
}
