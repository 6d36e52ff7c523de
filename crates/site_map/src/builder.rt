//! Building a site.

ghost use Rattle.std.specs.Prelude.{◌≡◌, ◌<◌, ◌≤◌, ◌&&◌, true, not, List, if◌then◌else◌, [], ◌∷◌, ◌++◌, length, map, take, slice_index_or, slice_set, None, Some, All, IfOk, IfErr, OnOk, OnErr};
ghost use Rattle.std.specs.Vec.{vec_capacity, vec_len};
ghost use Rattle.std.specs.FinSet as set;
ghost use Rattle.fleet_model.specs.Lists.{has_cell};
ghost use Rattle.fleet_base.specs.declared.limits.TheConstants.{MAX_CROSSINGS_OF_CELL};
ghost use Rattle.site_map.specs.Crossings.{completed, crossing_claims, in_flow, with_line};
ghost use Rattle.site_map.specs.Built.{completed_site, crossing_at, crossings_with, no_crossing, no_site, with_area, with_cell, with_crossing, with_flow, with_link};
ghost use Rattle.site_map.specs.Claims.{footprint_in, is_alone};
ghost use Rattle.site_map.specs.Inside.{claim_at, places_list, AreCells, IsOwner, IsPlace};
ghost use Rattle.site_map.specs.Refusals.{area_cause, cell_cause, crossing_cause, flow_cause, link_cause, IsRefusal};

use crate::cells::{are_known, ascending, copy_paths, set_of};
use crate::crossing::{Crossing, are_free, copy_crossings};
use crate::link_list::{LinkList, copy_links};
use crate::numbering::number_claims;
use crate::places::{Place, Places, enter, is_crowded, mark};
use crate::refused::{BuildRefused, MAX_CROSSING_CLAIMS};
use crate::site::Site;
use bit_set::BitSet;
use fleet_base::limits::{MAX_AREAS, MAX_CELLS, MAX_COST, MAX_LINKS};
use fleet_base::numbers::{CellNo, ClaimNo, Link};
use fleet_base::path::{NoMemory, Path};
use std::alloc::{AllocError, Global};
use std::marker::Model;

/// A site that is being built. Contracts see what was built so far: the number of cells, the
/// crossings with their cells and flow lines, the areas and the links, each list of cells
/// ascending.
#[derive(Drop)]
pub struct SiteBuilder {
    pub(crate) alloc: Global,
    pub(crate) links: Vec<LinkList>,
    pub(crate) link_count: u32,
    pub(crate) places: Vec<Places>,
    pub(crate) crossings: Vec<Crossing>,
    pub(crate) areas: Vec<Path>,
    pub(crate) firsts: Vec<u32>,
    pub(crate) owners: Vec<u32>,
}

impl Model for SiteBuilder {
    ghost use Rattle.std.specs.Prelude.{length};
    ghost use Rattle.site_map.specs.Built.{BuiltSite};

    ghost Value = { BuiltSite };

    ghost use Rattle.site_map.specs.Inside.{IsKept};

    ghost view = { λ b. record { cells = length b.links.items; crossings = b.crossings.items; areas = b.areas.items; links = b.links.items } };

    ghost invariant = { λ b. IsKept b.links.items b.link_count b.places.items b.crossings.items b.areas.items b.firsts.items b.owners.items };
}

impl SiteBuilder {
    /// A site without cells.
    pub fn new(alloc: Global) -> SiteBuilder
        ensures { result ≡ no_site }
    {
        SiteBuilder {
            alloc,
            links: Vec::new(alloc),
            link_count: 0,
            places: Vec::new(alloc),
            crossings: Vec::new(alloc),
            areas: Vec::new(alloc),
            firsts: Vec::new(alloc),
            owners: Vec::new(alloc),
        }
    }

    /// Adds a cell, whose number is the number of cells before it.
    pub fn cell(&mut self) -> Result<CellNo, BuildRefused>
        ensures accepted { OnOk result (cell_cause self.old ≡ None) }
        ensures refused { IfErr result (IsRefusal (cell_cause self.old)) }
        ensures number { IfOk result (λ c. c.0 ≡ self.old.cells) }
        ensures built { OnOk result (self.new ≡ with_cell self.old) }
        ensures kept { OnErr result (self.new ≡ self.old) }
    {
        if self.links.len() >= MAX_CELLS as usize {
            return Err(BuildRefused::Full);
        }
        let number = self.links.len() as u32;
        self.places.reserve(1)?;
        self.links.push(LinkList::new(self.alloc))?;
        self.places.push(Places::Free).unwrap();
        Ok(CellNo(number))
    }

    /// Adds a crossing of these cells, whose number is the number of crossings before it.
    pub fn crossing(&mut self, cells: &[CellNo]) -> Result<u32, BuildRefused>
        requires { 0 < length cells.now }
        ensures accepted { OnOk result (crossing_cause self.old cells.now ≡ None) }
        ensures refused { IfErr result (IsRefusal (crossing_cause self.old cells.now)) }
        ensures number { IfOk result (λ k. k ≡ length self.old.crossings) }
        ensures built { OnOk result (self.new ≡ with_crossing self.old cells.now) }
        ensures kept { OnErr result (self.new ≡ self.old) }
    {
        let members = self.checked_crossing(cells)?;
        let kept = ascending(self.alloc, &members, self.links.len() as u32)?;
        let number = self.crossings.len() as u32;
        self.add_crossing(kept, members)?;
        Ok(number)
    }

    /// Adds an area of these cells, whose number is the number of areas before it.
    pub fn area(&mut self, cells: &[CellNo]) -> Result<u32, BuildRefused>
        requires { 0 < length cells.now }
        ensures accepted { OnOk result (area_cause self.old cells.now ≡ None) }
        ensures refused { IfErr result (IsRefusal (area_cause self.old cells.now)) }
        ensures number { IfOk result (λ k. k ≡ length self.old.areas) }
        ensures built { OnOk result (self.new ≡ with_area self.old cells.now) }
        ensures kept { OnErr result (self.new ≡ self.old) }
    {
        let count = self.links.len() as u32;
        if !are_known(cells, count) {
            return Err(BuildRefused::UnknownCell);
        }
        let Some(members) = set_of(cells) else {
            return Err(BuildRefused::Repeated);
        };
        if self.areas.len() >= MAX_AREAS as usize {
            return Err(BuildRefused::Full);
        }
        let kept = ascending(self.alloc, &members, count)?;
        let number = self.areas.len() as u32;
        self.areas.push(kept)?;
        Ok(number)
    }

    /// Adds a link.
    pub fn link(&mut self, from: CellNo, to: CellNo, cost: u32) -> Result<(), BuildRefused>
        requires costs { 1 ≤ cost }
        requires cheap { cost ≤ MAX_COST }
        ensures accepted { OnOk result (link_cause self.old from to ≡ None) }
        ensures refused { IfErr result (IsRefusal (link_cause self.old from to)) }
        ensures built { OnOk result (self.new ≡ with_link self.old from (record { to = to; cost = cost })) }
        ensures kept { OnErr result (self.new ≡ self.old) }
    {
        let count = self.links.len() as u32;
        if from.0 >= count || to.0 >= count {
            return Err(BuildRefused::UnknownCell);
        }
        if self.link_count >= MAX_LINKS {
            return Err(BuildRefused::Full);
        }
        if from.0 == to.0 {
            return Err(BuildRefused::SelfLink);
        }
        let row = &mut self.links[from.0 as usize];
        if row.has(to) {
            return Err(BuildRefused::Linked);
        }
        row.insert(Link { to, cost })?;
        self.link_count += 1;
        Ok(())
    }

    /// Adds these cells as one more flow line of the crossing.
    pub fn flow(&mut self, crossing: u32, cells: &[CellNo]) -> Result<(), BuildRefused>
        requires { 0 < length cells.now }
        ensures accepted { OnOk result (flow_cause self.old crossing cells.now ≡ None) }
        ensures refused { IfErr result (IsRefusal (flow_cause self.old crossing cells.now)) }
        ensures built { OnOk result (self.new ≡ with_flow self.old crossing cells.now) }
        ensures kept { OnErr result (self.new ≡ self.old) }
    {
        let members = self.checked_flow(crossing, cells)?;
        let line = ascending(self.alloc, &members, self.links.len() as u32)?;
        self.add_flow(crossing, line, &members)?;
        Ok(())
    }

    /// The site as built. Where a crossing has flow lines, its cells in none of them are its last
    /// flow. It takes no memory.
    pub fn finish(self) -> Site
        ensures { result ≡ completed_site self }
    {
        Site { built: self }
    }

    // The cells of a new crossing as a set, or the first cause to refuse it.
    fn checked_crossing(&self, cells: &[CellNo]) -> Result<BitSet<16>, BuildRefused>
        ensures accepted { OnOk result (crossing_cause self.now cells.now ≡ None) }
        ensures refused { IfErr result (λ e. crossing_cause self.now cells.now ≡ Some e) }
        ensures members { IfOk result (λ s. (c : CellNo) → set.contains s c.0 ≡ has_cell cells.now c) }
    {
        if !are_known(cells, self.links.len() as u32) {
            return Err(BuildRefused::UnknownCell);
        }
        let Some(members) = set_of(cells) else {
            return Err(BuildRefused::Repeated);
        };
        if self.owners.len() >= MAX_CROSSING_CLAIMS as usize {
            return Err(BuildRefused::Full);
        }
        if is_crowded(&self.places, cells) {
            return Err(BuildRefused::TooManyCrossings);
        }
        Ok(members)
    }

    // Adds a crossing of these cells, which are few enough and have room.
    fn add_crossing(&mut self, cells: Path, members: BitSet<16>) -> Result<(), AllocError>
        requires cells { AreCells self.old.cells cells }
        requires members { (c : CellNo) → set.contains members c.0 ≡ has_cell cells c }
        requires claims { crossing_claims (map completed self.old.crossings) < MAX_CROSSING_CLAIMS }
        requires room { All (λ c. crossings_with self.old.crossings c < MAX_CROSSINGS_OF_CELL) cells }
        ensures built { OnOk result (self.new ≡ record self.old { crossings = self.old.crossings ++ record { cells = cells; flows = [] } ∷ [] }) }
        ensures kept { OnErr result (self.new ≡ self.old) }
    {
        self.firsts.reserve(1)?;
        self.owners.reserve(1)?;
        self.crossings.reserve(1)?;
        enter(&mut self.places, &members, self.crossings.len() as u32);
        let made = Crossing::new(self.alloc, cells, members);
        self.crossings.push(made).unwrap();
        self.firsts.push(0).unwrap();
        self.owners.push(0).unwrap();
        number_claims(&self.crossings, &mut self.firsts, &mut self.owners);
        Ok(())
    }

    // The cells of a new flow line as a set, or the first cause to refuse it.
    fn checked_flow(&self, crossing: u32, cells: &[CellNo]) -> Result<BitSet<16>, BuildRefused>
        ensures accepted { OnOk result (flow_cause self.now crossing cells.now ≡ None) }
        ensures refused { IfErr result (λ e. flow_cause self.now crossing cells.now ≡ Some e) }
        ensures members { IfOk result (λ s. (c : CellNo) → set.contains s c.0 ≡ has_cell cells.now c) }
    {
        if !are_known(cells, self.links.len() as u32) {
            return Err(BuildRefused::UnknownCell);
        }
        if crossing as usize >= self.crossings.len() {
            return Err(BuildRefused::UnknownCrossing);
        }
        let Some(members) = set_of(cells) else {
            return Err(BuildRefused::Repeated);
        };
        if self.claims_with_line(crossing, &members) > MAX_CROSSING_CLAIMS as usize {
            return Err(BuildRefused::Full);
        }
        if !are_free(&self.crossings[crossing as usize], cells) {
            return Err(BuildRefused::Foreign);
        }
        Ok(members)
    }

    // The number of the crossings' claims, once the crossing has the members as a flow line.
    fn claims_with_line(&self, crossing: u32, members: &BitSet<16>) -> usize
        requires known { crossing < length self.now.crossings }
        requires members { (line : List CellNo) × ((c : CellNo) → set.contains members.now c.0 ≡ has_cell line c) }
        ensures { (line : List CellNo) → ((c : CellNo) → set.contains members.now c.0 ≡ has_cell line c)
            → result ≡ crossing_claims (map completed (slice_set self.now.crossings crossing (with_line (crossing_at self.now crossing) line))) }
    {
        let changed = &self.crossings[crossing as usize];
        self.owners.len() - changed.claim_count() + changed.claim_count_with(members)
    }

    // Adds a flow line of free cells to the crossing.
    fn add_flow(
        &mut self,
        crossing: u32,
        line: Path,
        members: &BitSet<16>,
    ) -> Result<(), AllocError>
        requires known { crossing < length self.old.crossings }
        requires line { AreCells self.old.cells line }
        requires members { (c : CellNo) → set.contains members.now c.0 ≡ has_cell line c }
        requires free { (c : CellNo) → has_cell line c ≡ true → (has_cell (crossing_at self.old crossing).cells c && not (in_flow (crossing_at self.old crossing).flows c)) ≡ true }
        requires claims { crossing_claims (map completed (slice_set self.old.crossings crossing (with_line (crossing_at self.old crossing) line))) ≤ MAX_CROSSING_CLAIMS }
        ensures built { OnOk result (self.new ≡ record self.old { crossings = slice_set self.old.crossings crossing (with_line (crossing_at self.old crossing) line) }) }
        ensures kept { OnErr result (self.new ≡ self.old) }
    {
        self.owners.reserve(1)?;
        let changed = &mut self.crossings[crossing as usize];
        let number = changed.line_count() as u32;
        let before = changed.claim_count();
        let after = changed.claim_count_with(members);
        changed.add_line(line, members)?;
        mark(&mut self.places, members, crossing, number);
        push_if(&mut self.owners, before < after);
        number_claims(&self.crossings, &mut self.firsts, &mut self.owners);
        Ok(())
    }

    // The number of cells.
    pub(crate) fn cell_count(&self) -> u32
        ensures count { result ≡ self.now.cells }
        ensures small { result ≤ MAX_CELLS }
    {
        self.links.len() as u32
    }

    // The crossing of a claim, with the claims of crossings numbered from 0.
    pub(crate) fn crossing_of(&self, claim: u32) -> u32
        requires { claim < crossing_claims (map completed self.now.crossings) }
        ensures { IsOwner (map completed self.now.crossings) claim result }
    {
        self.owners[claim as usize]
    }

    // The first claim of a crossing, with the claims of crossings numbered from 0.
    pub(crate) fn first_of(&self, crossing: u32) -> u32
        requires { crossing < length self.now.crossings }
        ensures first { result ≡ crossing_claims (take crossing (map completed self.now.crossings)) }
        ensures small { result ≤ MAX_CROSSING_CLAIMS }
    {
        self.firsts[crossing as usize]
    }

    // Whether the crossing has no flows.
    pub(crate) fn is_alone(&self, crossing: u32) -> bool
        requires { crossing < length self.now.crossings }
        ensures { result ≡ is_alone (slice_index_or (map completed self.now.crossings) crossing no_crossing) }
    {
        self.crossings[crossing as usize].line_count() == 0
    }

    // Where the cell stands in crossings.
    pub(crate) fn places_of(&self, cell: CellNo) -> Places
        requires { cell.0 < self.now.cells }
        ensures claims { footprint_in (completed_site self.now) cell ≡ record { 0 = cell.0 } ∷ map (λ p. record { 0 = claim_at self.now p }) (places_list result) }
        ensures known { All (IsPlace self.now) (places_list result) }
    {
        self.places[cell.0 as usize]
    }

    // The claim of a cell with this place.
    pub(crate) fn claim_at(&self, place: Place) -> ClaimNo
        requires { IsPlace self.now place }
        ensures { result.0 ≡ claim_at self.now place }
    {
        let crossing = place.crossing as usize;
        let flow = self.crossings[crossing].flow_number(place.line);
        ClaimNo((self.links.len() + self.firsts[crossing] as usize + flow) as u32)
    }

    // An equal builder.
    pub(crate) fn copy(&self) -> Result<SiteBuilder, NoMemory>
        ensures { IfOk result (λ b. b ≡ self.now) }
    {
        let alloc = self.alloc;
        Ok(SiteBuilder {
            alloc,
            links: copy_links(alloc, &self.links)?,
            link_count: self.link_count,
            places: Vec::from_slice(alloc, &self.places)?,
            crossings: copy_crossings(alloc, &self.crossings)?,
            areas: copy_paths(alloc, &self.areas)?,
            firsts: Vec::from_slice(alloc, &self.firsts)?,
            owners: Vec::from_slice(alloc, &self.owners)?,
        })
    }
}

// Pushes a blank owner, if one is wanted, into the room that is left.
fn push_if(owners: &mut Vec<u32>, wanted: bool)
    requires { vec_len owners.old < vec_capacity owners.old }
    ensures { owners.new.items ≡ (if wanted then owners.old.items ++ 0 ∷ [] else owners.old.items) }
{
    if wanted {
        owners.push(0).unwrap();
    }
}
