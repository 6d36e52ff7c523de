//! Why an event isn't legal.

ghost use Rattle.std.specs.Prelude.{◌≡◌, ◌<◌, ◌≤◌, ◌++◌, length, All};
ghost use Rattle.std.specs.Option.{option_map};
ghost use Rattle.fleet_base.specs.declared.limits.TheConstants.{MAX_ROBOTS};
ghost use Rattle.fleet_model.specs.Lists.{first_some};
ghost use Rattle.site_map.specs.Claims.{claim_total, site_of};
ghost use Rattle.plan_events.specs.Clashes.{acquire_causes, event_clash as clash_of, holds_against as is_held_against, least_holder as first_holder, least_missing as first_missing, move_causes, release_causes, IsEventOf};
ghost use Rattle.plan_events.specs.Spots.{is_missing, shown, spot_of};

use crate::refused::ReplayClash;
use crate::spots::KeptSpot;
use fleet_base::limits::MAX_CLAIMS;
use fleet_base::numbers::{CellNo, ClaimNo, Event, EventNo, Kind, RobotNo};
use site_map::site::Site;

// The first cause why the event isn't legal there.
pub(crate) fn event_clash(site: &Site, spots: &[KeptSpot], event: &Event) -> Option<ReplayClash>
    requires limit { claim_total site.now ≤ MAX_CLAIMS }
    requires robots { length spots.now ≤ MAX_ROBOTS }
    requires event { IsEventOf (length spots.now) site.now.cells (claim_total site.now) event.now }
    ensures { result ≡ clash_of (site_of site.now) (length spots.now) (spot_of spots.now) event.now }
{
    let spot = &spots[event.robot.0 as usize];
    match event.kind {
        Kind::Acquire(claim) => acquire_clash(site, spots, event, claim),
        Kind::Move(from, to) => move_clash(site, spot, event.no, from, to),
        Kind::Release(claim) => release_clash(spot, event.no, claim),
    }
}

// The first cause why the robot can't acquire the claim: the least other robot that holds one
// against it, or that it holds the claim.
fn acquire_clash(
    site: &Site,
    spots: &[KeptSpot],
    event: &Event,
    claim: ClaimNo,
) -> Option<ReplayClash>
    requires limit { claim_total site.now ≤ MAX_CLAIMS }
    requires robots { length spots.now ≤ MAX_ROBOTS }
    requires robot { event.now.robot.0 < length spots.now }
    requires claim { claim.0 < claim_total site.now }
    ensures { result ≡ first_some (acquire_causes (site_of site.now) (length spots.now)
        (spot_of spots.now) event.now.no event.now.robot.0 claim) }
{
    if let Some(holder) = least_holder(site, spots, event.robot, claim) {
        return Some(ReplayClash::Held {
            event: event.no,
            claim,
            holder,
        });
    }
    if spots[event.robot.0 as usize].held.contains(claim.0) {
        return Some(ReplayClash::Twice {
            event: event.no,
            claim,
        });
    }
    None
}

// The least other robot that holds a claim that conflicts with this one.
fn least_holder(site: &Site, spots: &[KeptSpot], robot: RobotNo, claim: ClaimNo) -> Option<RobotNo>
    requires limit { claim_total site.now ≤ MAX_CLAIMS }
    requires robots { length spots.now ≤ MAX_ROBOTS }
    requires claim { claim.0 < claim_total site.now }
    ensures { option_map (λ holder. holder.0) result
        ≡ first_holder (site_of site.now) (length spots.now) (spot_of spots.now) robot.0 claim }
{
    for (place, spot) in spots.iter().enumerate() {
        if place != robot.0 as usize && holds_against(site, spot, claim) {
            return Some(RobotNo(place as u32));
        }
    }
    None
}

// Whether a robot there holds a claim that conflicts with this one.
fn holds_against(site: &Site, spot: &KeptSpot, claim: ClaimNo) -> bool
    requires limit { claim_total site.now ≤ MAX_CLAIMS }
    requires claim { claim.0 < claim_total site.now }
    ensures { result ≡ is_held_against (site_of site.now) (shown spot.now) claim }
{
    for number in 0..site.claim_count() {
        if spot.held.contains(number) && site.conflict(claim, ClaimNo(number)) {
            return true;
        }
    }
    false
}

// The first cause why a robot there can't move: it is in another cell, or doesn't hold a claim of
// the footprints of both cells.
fn move_clash(
    site: &Site,
    spot: &KeptSpot,
    event: EventNo,
    from: CellNo,
    to: CellNo,
) -> Option<ReplayClash>
    requires from { from.0 < site.now.cells }
    requires to { to.0 < site.now.cells }
    ensures { result ≡ first_some (move_causes (site_of site.now) (shown spot.now) event from to) }
{
    if spot.cell.0 != from.0 {
        return Some(ReplayClash::NotAt {
            event,
            at: spot.cell,
        });
    }
    let left = site.footprint(from);
    let entered = site.footprint(to);
    match least_missing(spot, left.list(), entered.list()) {
        Some(claim) => Some(ReplayClash::NotHeld { event, claim }),
        None => None,
    }
}

// The least of the claims of both lists that a robot there doesn't hold.
fn least_missing(spot: &KeptSpot, left: &[ClaimNo], entered: &[ClaimNo]) -> Option<ClaimNo>
    requires left { All (λ c. c.0 < MAX_CLAIMS) left.now }
    requires entered { All (λ c. c.0 < MAX_CLAIMS) entered.now }
    ensures { result ≡ first_missing (shown spot.now) (left.now ++ entered.now) }
{
    for number in 0..MAX_CLAIMS {
        let claim = ClaimNo(number);
        if is_missing(spot, left, entered, claim) {
            return Some(claim);
        }
    }
    None
}

// Whether the claim is in one of the lists, and a robot there doesn't hold it.
fn is_missing(spot: &KeptSpot, left: &[ClaimNo], entered: &[ClaimNo], claim: ClaimNo) -> bool
    requires { claim.0 < MAX_CLAIMS }
    ensures { result ≡ is_missing (shown spot.now) left.now entered.now claim }
{
    (left.contains(&claim) || entered.contains(&claim)) && !spot.held.contains(claim.0)
}

// Why a robot there can't release the claim: it doesn't hold it.
fn release_clash(spot: &KeptSpot, event: EventNo, claim: ClaimNo) -> Option<ReplayClash>
    requires { claim.0 < MAX_CLAIMS }
    ensures { result ≡ first_some (release_causes (shown spot.now) event claim) }
{
    if spot.held.contains(claim.0) {
        None
    } else {
        Some(ReplayClash::NotHeld { event, claim })
    }
}
