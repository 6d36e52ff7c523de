//! What one step of a route acquires and releases.

ghost use Rattle.std.specs.Prelude.{◌≡◌, ◌<◌, ◌≤◌, ◌++◌, map, length, OnOk};
ghost use Rattle.fleet_base.specs.declared.numbers.Kind.TheVariants.{Acquire, Release};
ghost use Rattle.fleet_model.specs.Sites.{step, without};
ghost use Rattle.site_map.specs.Claims.{site_of};

use fleet_base::numbers::{CellNo, ClaimNo, Kind};
use site_map::site::Site;
use std::alloc::AllocError;

// How many events the step has.
pub(crate) fn step_count(site: &Site, from: CellNo, to: CellNo) -> u32
    requires from_known { from.0 < site.now.cells }
    requires to_known { to.0 < site.now.cells }
    ensures count { result ≡ length (step (site_of site.now) from to) }
    ensures few { result ≤ 7 }
{
    let old = site.footprint(from);
    let new = site.footprint(to);
    count_without(new.list(), old.list()) + 1 + count_without(old.list(), new.list())
}

// Appends the events of the step.
pub(crate) fn push_step(
    site: &Site,
    kinds: &mut Vec<Kind>,
    from: CellNo,
    to: CellNo,
) -> Result<(), AllocError>
    requires from_known { from.0 < site.now.cells }
    requires to_known { to.0 < site.now.cells }
    ensures { OnOk result (kinds.new.items ≡ kinds.old.items ++ step (site_of site.now) from to) }
{
    let old = site.footprint(from);
    let new = site.footprint(to);
    push_acquires(kinds, new.list(), old.list())?;
    kinds.push(Kind::Move(from, to))?;
    push_releases(kinds, old.list(), new.list())
}

// How many claims aren't among the others.
fn count_without(claims: &[ClaimNo], others: &[ClaimNo]) -> u32
    requires { length claims.now ≤ 3 }
    ensures count { result ≡ length (without claims.now others.now) }
    ensures few { result ≤ 3 }
{
    let mut count = 0;
    for claim in claims {
        if !others.contains(claim) {
            count += 1;
        }
    }
    count
}

// Appends the acquires of those claims that aren't held.
fn push_acquires(
    kinds: &mut Vec<Kind>,
    claims: &[ClaimNo],
    held: &[ClaimNo],
) -> Result<(), AllocError>
    ensures { OnOk result (kinds.new.items ≡ kinds.old.items ++ map (λ c. Acquire c) (without claims.now held.now)) }
{
    for claim in claims {
        if !held.contains(claim) {
            kinds.push(Kind::Acquire(*claim))?;
        }
    }
    Ok(())
}

// Appends the releases of those claims that aren't kept.
fn push_releases(
    kinds: &mut Vec<Kind>,
    claims: &[ClaimNo],
    kept: &[ClaimNo],
) -> Result<(), AllocError>
    ensures { OnOk result (kinds.new.items ≡ kinds.old.items ++ map (λ c. Release c) (without claims.now kept.now)) }
{
    for claim in claims {
        if !kept.contains(claim) {
            kinds.push(Kind::Release(*claim))?;
        }
    }
    Ok(())
}
