//! Where each robot is, and which claims it holds.

ghost use Rattle.std.specs.Prelude.{◌≡◌, ℕ, ◌<◌, ◌≤◌, length, All, IfOk, OnOk};
ghost use Rattle.fleet_model.specs.Replays.{after_event, held_claims, opening, standing as standing_at};
ghost use Rattle.site_map.specs.Claims.{claim_total, site_of};
ghost use Rattle.plan_events.specs.Clashes.{HasClaimOf};
ghost use Rattle.plan_events.specs.Spots.{shown, spot_of};

use bit_set::BitSet;
use fleet_base::limits::MAX_CLAIMS;
use fleet_base::numbers::{CellNo, ClaimNo, Event, Kind};
use site_map::site::Site;
use std::alloc::{AllocError, Global};

// The cell that a robot is in, and the numbers of the claims that it holds.
#[derive(Clone, Copy)]
pub(crate) struct KeptSpot {
    pub(crate) cell: CellNo,
    pub(crate) held: BitSet<20>,
}

// Each robot in its start, with its footprint.
pub(crate) fn opening_spots(
    alloc: Global,
    site: &Site,
    starts: &[CellNo],
) -> Result<Vec<KeptSpot>, AllocError>
    requires { All (λ a. a.0 < site.now.cells) starts.now }
    ensures robots { IfOk result (λ spots. length spots.items ≡ length starts.now) }
    ensures spots { IfOk result (λ spots. (r : ℕ) →
        spot_of spots.items r ≡ opening (site_of site.now) starts.now r) }
    ensures limit { 0 < length starts.now → OnOk result (claim_total site.now ≤ MAX_CLAIMS) }
{
    let mut spots = Vec::with_capacity(alloc, starts.len())?;
    for start in starts {
        let spot = standing(site, *start);
        spots.push(spot).map_err(AllocError::from)?;
    }
    Ok(spots)
}

// In the cell, with its footprint.
fn standing(site: &Site, cell: CellNo) -> KeptSpot
    requires { cell.0 < site.now.cells }
    ensures spot { shown result ≡ standing_at (site_of site.now) cell }
    ensures limit { claim_total site.now ≤ MAX_CLAIMS }
{
    let footprint = site.footprint(cell);
    let mut held = BitSet::new();
    for claim in footprint.list() {
        held.insert(claim.0);
    }
    KeptSpot { cell, held }
}

// The event's robot has done what it does.
pub(crate) fn apply(spots: &mut [KeptSpot], event: &Event)
    requires robot { event.now.robot.0 < length spots.old }
    requires claim { HasClaimOf MAX_CLAIMS event.now.kind }
    ensures { (r : ℕ) → spot_of spots.new r ≡ after_event event.now (spot_of spots.old) r }
{
    let spot = &mut spots[event.robot.0 as usize];
    match event.kind {
        Kind::Acquire(claim) => spot.held.insert(claim.0),
        Kind::Move(_, to) => spot.cell = to,
        Kind::Release(claim) => spot.held.remove(claim.0),
    }
}

// The claims that a robot there holds, ascending.
pub(crate) fn held_list(
    alloc: Global,
    site: &Site,
    spot: &KeptSpot,
) -> Result<Vec<ClaimNo>, AllocError>
    requires { claim_total site.now ≤ MAX_CLAIMS }
    ensures { IfOk result (λ claims. claims.items
        ≡ held_claims (site_of site.now) (shown spot.now)) }
{
    let mut claims = Vec::new(alloc);
    for number in 0..site.claim_count() {
        if spot.held.contains(number) {
            claims.push(ClaimNo(number))?;
        }
    }
    Ok(claims)
}
