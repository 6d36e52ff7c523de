//! A site.

ghost use Rattle.std.specs.Prelude.{◌≡◌, ◌≢◌, ◌<◌, ◌≤◌, length, Some, slice_get, All, AllPairs, IfOk};
ghost use Rattle.std.specs.List.{list_any};
ghost use Rattle.std.specs.Option.{option_map};
ghost use Rattle.fleet_base.specs.Lists.{RiseFrom};
ghost use Rattle.fleet_base.specs.declared.limits.TheConstants.{MAX_CLAIMS, MAX_COST};
ghost use Rattle.fleet_model.specs.Tables.{IsCounted};
ghost use Rattle.fleet_model.specs.Sites.{exclude, footprint_of, in_conflict, is_kept_from, link_cost, links_from, IsSite};
ghost use Rattle.site_map.specs.Built.{area_at, crossing_at, link_total};
ghost use Rattle.site_map.specs.Cells.{CellsRise, LinksRise};
ghost use Rattle.site_map.specs.Claims.{claim_total, group_at, names_of, site_of};
ghost use Rattle.site_map.specs.Valid.{IsValidSite};

use crate::builder::SiteBuilder;
use crate::names::ClaimName;
use crate::places::Places;
use fleet_base::claims::Claims;
use fleet_base::numbers::{CellNo, ClaimGroup, ClaimNo, Link};
use fleet_base::path::NoMemory;
use std::alloc::Global;
use std::marker::Model;

/// A site, which never changes. Contracts see what it was built of: the number of cells, the
/// crossings with their cells and their flows, the areas and the links. Its claims and footprints
/// are those of `site_of`.
#[derive(Drop)]
pub struct Site {
    pub(crate) built: SiteBuilder,
}

impl Model for Site {
    ghost use Rattle.site_map.specs.Built.{BuiltSite, completed_site};

    ghost Value = { BuiltSite };

    ghost view = { λ s. completed_site s.built };
}

impl Site {
    /// The number of cells. Every site is one that the rules speak of, and keeps the limits and the
    /// order of its parts.
    pub fn cell_count(&self) -> u32
        ensures count { result ≡ self.now.cells }
        ensures site { IsSite (site_of self.now) }
        ensures counted { IsCounted (site_of self.now) }
        ensures valid { IsValidSite self.now }
    {
        let built = &self.built;
        built.links.len() as u32
    }

    /// The number of crossings.
    pub fn crossing_count(&self) -> u32
        ensures { result ≡ length self.now.crossings }
    {
        let built = &self.built;
        built.crossings.len() as u32
    }

    /// The number of areas.
    pub fn area_count(&self) -> u32
        ensures { result ≡ length self.now.areas }
    {
        let built = &self.built;
        built.areas.len() as u32
    }

    /// The number of links.
    pub fn link_count(&self) -> u32
        ensures { result ≡ link_total self.now.links }
    {
        let built = &self.built;
        built.link_count
    }

    /// The number of claims, which are numbered from 0.
    pub fn claim_count(&self) -> u32
        ensures count { result ≡ claim_total self.now }
        ensures groups { result ≡ length (site_of self.now).groups }
        ensures limit { result ≤ MAX_CLAIMS }
    {
        let built = &self.built;
        (built.links.len() + built.owners.len()) as u32
    }

    /// The claims that a robot holds in the cell, ascending: the cell's own, and those of the
    /// crossings that contain it. It takes no memory.
    pub fn footprint(&self, cell: CellNo) -> Claims
        requires { cell.0 < self.now.cells }
        ensures claims { result ≡ footprint_of (site_of self.now) cell }
        ensures own { slice_get result 0 ≡ Some (record { 0 = cell.0 }) }
        ensures short { length result ≤ 3 }
        ensures ascending { RiseFrom 0 result }
        ensures apart { AllPairs (λ c d. group_at (site_of self.now) c ≢ group_at (site_of self.now) d) result }
        ensures known { All (λ c. c.0 < claim_total self.now) result }
        ensures limit { claim_total self.now ≤ MAX_CLAIMS }
    {
        let built = &self.built;
        let own = ClaimNo(cell.0);
        match built.places_of(cell) {
            Places::Free => claims_of(built.alloc, &[own]),
            Places::One(place) => claims_of(built.alloc, &[own, built.claim_at(place)]),
            Places::Two(place, other) => {
                let claims = [own, built.claim_at(place), built.claim_at(other)];
                claims_of(built.alloc, &claims)
            }
        }
    }

    /// What the link from one cell to another costs; none where there is no link.
    pub fn cost(&self, from: CellNo, to: CellNo) -> Option<u32>
        requires { from.0 < self.now.cells }
        ensures { result ≡ link_cost (site_of self.now) from to }
    {
        let built = &self.built;
        built.links[from.0 as usize].cost(to)
    }

    /// The links from a cell, ascending by the cells that they lead to.
    pub fn links(&self, from: CellNo) -> &[Link]
        requires { from.0 < self.now.cells }
        ensures links { result.now ≡ links_from (site_of self.now) from }
        ensures ascending { LinksRise 0 result.now }
        ensures known { All (λ l. l.to.0 < self.now.cells) result.now }
        ensures costs { All (λ l. (1 ≤ l.cost) × (l.cost ≤ MAX_COST)) result.now }
    {
        let built = &self.built;
        built.links[from.0 as usize].as_slice()
    }

    /// The cells of an area, ascending.
    pub fn area_cells(&self, area: u32) -> &[CellNo]
        requires { area < length self.now.areas }
        ensures cells { result.now ≡ area_at self.now area }
        ensures ascending { CellsRise 0 result.now }
        ensures known { All (λ c. c.0 < self.now.cells) result.now }
        ensures some { 0 < length result.now }
    {
        let built = &self.built;
        built.areas[area as usize].cells()
    }

    /// The cells of a crossing, ascending.
    pub fn crossing_cells(&self, crossing: u32) -> &[CellNo]
        requires { crossing < length self.now.crossings }
        ensures cells { result.now ≡ (crossing_at self.now crossing).cells }
        ensures ascending { CellsRise 0 result.now }
        ensures known { All (λ c. c.0 < self.now.cells) result.now }
        ensures some { 0 < length result.now }
    {
        let built = &self.built;
        built.crossings[crossing as usize].cells()
    }

    /// The number of a crossing's flows: the claims of a crossing with flow lines, and 0 for a
    /// crossing without.
    pub fn crossing_flows(&self, crossing: u32) -> u32
        requires { crossing < length self.now.crossings }
        ensures { result ≡ length (crossing_at self.now crossing).flows }
    {
        let built = &self.built;
        built.crossings[crossing as usize].flow_count() as u32
    }

    /// Whether two robots must not hold these claims at once.
    pub fn conflict(&self, one: ClaimNo, other: ClaimNo) -> bool
        requires one_known { one.0 < claim_total self.now }
        requires other_known { other.0 < claim_total self.now }
        ensures conflict { result ≡ in_conflict (site_of self.now).groups one other }
        ensures symmetric { result ≡ in_conflict (site_of self.now).groups other one }
    {
        exclude(self.group(one), self.group(other), one.0 == other.0)
    }

    /// Whether the claim conflicts with one of these.
    pub fn conflicts_with(&self, claim: ClaimNo, others: &[ClaimNo]) -> bool
        requires claim { claim.0 < claim_total self.now }
        requires others { All (λ d. d.0 < claim_total self.now) others.now }
        ensures { result ≡ list_any (λ d. in_conflict (site_of self.now).groups claim d) others.now }
    {
        for other in others {
            if self.conflict(claim, *other) {
                return true;
            }
        }
        false
    }

    /// Whether the claim conflicts with one of the cell's. It takes no memory.
    pub fn is_kept_from(&self, claim: ClaimNo, cell: CellNo) -> bool
        requires claim { claim.0 < claim_total self.now }
        requires cell { cell.0 < self.now.cells }
        ensures { result ≡ is_kept_from (site_of self.now) claim cell }
    {
        let footprint = self.footprint(cell);
        self.conflicts_with(claim, footprint.list())
    }

    /// The group of a claim, and whether it is alone in it.
    pub fn group(&self, claim: ClaimNo) -> ClaimGroup
        requires { claim.0 < claim_total self.now }
        ensures { slice_get (site_of self.now).groups claim.0 ≡ Some result }
    {
        let cells = self.built.cell_count();
        if claim.0 < cells {
            return ClaimGroup {
                group: claim.0,
                alone: true,
            };
        }
        let crossing = self.built.crossing_of(claim.0 - cells);
        ClaimGroup {
            group: cells + self.built.first_of(crossing),
            alone: self.built.is_alone(crossing),
        }
    }

    /// What a claim is a claim of.
    pub fn claim_name(&self, claim: ClaimNo) -> ClaimName
        requires { claim.0 < claim_total self.now }
        ensures { slice_get (names_of self.now) claim.0 ≡ Some result }
    {
        let cells = self.built.cell_count();
        if claim.0 < cells {
            return ClaimName::Cell(CellNo(claim.0));
        }
        let crossing = self.built.crossing_of(claim.0 - cells);
        let flow = claim.0 - cells - self.built.first_of(crossing);
        if self.built.is_alone(crossing) {
            ClaimName::Crossing {
                crossing,
                flow: None,
            }
        } else {
            ClaimName::Crossing {
                crossing,
                flow: Some(flow),
            }
        }
    }

    /// An equal site.
    pub fn copy(&self) -> Result<Site, NoMemory>
        ensures { IfOk result (λ site. site ≡ self.now) }
    {
        Ok(Site {
            built: self.built.copy()?,
        })
    }
}

// The claims, which rise, in a list that takes no memory.
fn claims_of(alloc: Global, claims: &[ClaimNo]) -> Claims
    requires rise { RiseFrom 0 claims.now }
    requires short { length claims.now ≤ 3 }
    ensures { result ≡ claims.now }
{
    let mut list = Claims::new(alloc);
    for claim in claims {
        list.put(*claim);
    }
    list
}

// Whether claims of these groups exclude each other; `same` tells whether they are one claim.
fn exclude(one: ClaimGroup, other: ClaimGroup, same: bool) -> bool
    ensures { result ≡ exclude (Some one) (Some other) same }
{
    one.group == other.group && (!same || one.alone)
}
