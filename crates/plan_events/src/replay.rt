//! The replay of events, one after the other.

ghost use Rattle.std.specs.Prelude.{◌≡◌, ◌<◌, ◌≤◌, length, None, Some, slice_get, All, IfOk, IfErr, OnOk};
ghost use Rattle.fleet_base.specs.declared.limits.TheConstants.{MAX_CLAIMS};
ghost use Rattle.fleet_model.specs.Replays.{opening, replay, IsLegal};
ghost use Rattle.site_map.specs.Claims.{claim_total, site_of};
ghost use Rattle.plan_events.specs.Clashes.{order_clash, IsEventOf, IsRefusalOf};
ghost use Rattle.plan_events.specs.Holdings.{holdings_of};
ghost use Rattle.plan_events.specs.Spots.{spot_of};

use crate::clash::event_clash;
use crate::refused::ReplayClash;
use crate::spots::{KeptSpot, apply, held_list, opening_spots};
use fleet_base::limits::MAX_ROBOTS;
use fleet_base::numbers::{CellNo, ClaimNo, Event, RobotNo};
use site_map::site::Site;
use std::alloc::{AllocError, Global};
use std::marker::Model;

/// Where each robot is behind a replay, and which claims it holds. Contracts see a list of each,
/// with a place for each robot.
#[derive(Drop)]
pub struct Holding {
    places: Vec<CellNo>,
    holdings: Vec<Vec<ClaimNo>>,
}

impl Model for Holding {
    ghost use Rattle.std.specs.Prelude.{◌≡◌, length, map};
    ghost use Rattle.plan_events.specs.Holdings.{Holdings};

    ghost Value = { Holdings };

    ghost view = { λ h. record {
      places = h.places.items;
      holdings = map (λ claims. claims.items) h.holdings.items;
    } };
}

impl Holding {
    /// The cell that the robot is in.
    pub fn at(&self, robot: RobotNo) -> CellNo
        requires { robot.0 < length self.now.places }
        ensures { slice_get self.now.places robot.0 ≡ Some result }
    {
        self.places[robot.0 as usize]
    }

    /// The claims that the robot holds, ascending.
    pub fn held(&self, robot: RobotNo) -> &[ClaimNo]
        requires { robot.0 < length self.now.holdings }
        ensures { slice_get self.now.holdings robot.0 ≡ Some result.now }
    {
        &self.holdings[robot.0 as usize]
    }
}

/// Plays the events one after the other, from each robot in its start with the footprint there.
/// Refused is the first event that isn't legal in its place. It is a tool of tests.
pub fn replay_order(
    alloc: Global,
    site: &Site,
    starts: &[CellNo],
    events: &[Event],
) -> Result<Holding, ReplayClash>
    requires starts { All (λ a. a.0 < site.now.cells) starts.now }
    requires robots { length starts.now ≤ MAX_ROBOTS }
    requires events { All (IsEventOf (length starts.now) site.now.cells (claim_total site.now))
        events.now }
    ensures legal { OnOk result (IsLegal (site_of site.now)
        (opening (site_of site.now) starts.now) events.now) }
    ensures accepted { OnOk result (order_clash (site_of site.now) (length starts.now)
        (opening (site_of site.now) starts.now) events.now ≡ None) }
    ensures refused { IfErr result (IsRefusalOf (order_clash (site_of site.now) (length starts.now)
        (opening (site_of site.now) starts.now) events.now)) }
    ensures holding { IfOk result (λ holding. holding ≡ holdings_of (site_of site.now)
        (length starts.now) (replay (opening (site_of site.now) starts.now) events.now)) }
{
    let mut spots = opening_spots(alloc, site, starts)?;
    for event in events {
        if let Some(clash) = event_clash(site, &spots, event) {
            return Err(clash);
        }
        apply(&mut spots, event);
    }
    Ok(holding_of(alloc, site, &spots)?)
}

// The cells and the held claims of the robots.
fn holding_of(alloc: Global, site: &Site, spots: &[KeptSpot]) -> Result<Holding, AllocError>
    requires { 0 < length spots.now → claim_total site.now ≤ MAX_CLAIMS }
    ensures { IfOk result (λ holding. holding
        ≡ holdings_of (site_of site.now) (length spots.now) (spot_of spots.now)) }
{
    let mut places = Vec::new(alloc);
    let mut holdings = Vec::new(alloc);
    for spot in spots {
        places.push(spot.cell)?;
        let held = held_list(alloc, site, spot)?;
        holdings.push(held).map_err(AllocError::from)?;
    }
    Ok(Holding { places, holdings })
}

#[cfg(test)]
mod tests;
