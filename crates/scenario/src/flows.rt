// Which flow of a crossing a cell is in.
ghost use Rattle.std.specs.Prelude.{◌≡◌, ◌<◌, ◌+◌, ◌++◌, ◌∷◌, [], true, if◌then◌else◌, length, take, IfOk, OnOk};
ghost use Rattle.fleet_model.specs.Lists.{has_cell};
ghost use Rattle.site_map.specs.Built.{crossing_at, crossings_with};
ghost use Rattle.site_map.specs.Crossings.{crossing_claims, flow_of};
ghost use Rattle.scenario.specs.Canonical.{cells_of_flow};

use fleet_base::numbers::CellNo;
use fleet_base::path::NoMemory;
use site_map::site::Site;
use std::alloc::Global;

// The cells of a crossing that are in the flow with this number, ascending. The crossing's first
// claim is handed in.
pub(crate) fn cells_of_flow(
    alloc: Global,
    site: &Site,
    crossing: u32,
    first: u32,
    flow: u32,
) -> Result<Vec<CellNo>, NoMemory>
    requires known { crossing < length site.now.crossings }
    requires first { first ≡ site.now.cells + crossing_claims (take crossing site.now.crossings) }
    ensures { IfOk result (λ cells. cells.items ≡ cells_of_flow (crossing_at site.now crossing) flow) }
{
    let mut cells = Vec::new(alloc);
    for cell in site.crossing_cells(crossing) {
        let is_in = flow_of(site, crossing, first, *cell) == flow;
        push_if(&mut cells, *cell, is_in)?;
    }
    Ok(cells)
}

// Appends the cell, where the test says so.
fn push_if(cells: &mut Vec<CellNo>, cell: CellNo, is_in: bool) -> Result<(), NoMemory>
    ensures { OnOk result (cells.new.items ≡ (if is_in then cells.old.items ++ cell ∷ [] else cells.old.items)) }
{
    if is_in {
        cells.extend_from_slice(&[cell])?;
    }
    Ok(())
}

// The number of the flow of a crossing that one of its cells is in.
fn flow_of(site: &Site, crossing: u32, first: u32, cell: CellNo) -> u32
    requires known { crossing < length site.now.crossings }
    requires first { first ≡ site.now.cells + crossing_claims (take crossing site.now.crossings) }
    requires cell { cell.0 < site.now.cells }
    requires inside { has_cell (crossing_at site.now crossing).cells cell ≡ true }
    ensures { result ≡ flow_of (crossing_at site.now crossing) cell }
{
    let claims = site.footprint(cell);
    let place = 1 + crossings_before(site, crossing, cell);
    claims.list()[place].0 - first
}

// How many crossings before this one contain the cell.
fn crossings_before(site: &Site, crossing: u32, cell: CellNo) -> usize
    requires { crossing < length site.now.crossings }
    ensures { result ≡ crossings_with (take crossing site.now.crossings) cell }
{
    let mut count = 0;
    for earlier in 0..crossing {
        count += usize::from(site.crossing_cells(earlier).contains(&cell));
    }
    count
}

// The first claim behind those of a crossing, whose first claim is handed in.
pub(crate) fn claims_behind(site: &Site, crossing: u32, first: u32) -> u32
    requires known { crossing < length site.now.crossings }
    requires first { first ≡ site.now.cells + crossing_claims (take crossing site.now.crossings) }
    ensures { result ≡ site.now.cells + crossing_claims (take (crossing + 1) site.now.crossings) }
{
    let behind = u64::from(first) + u64::from(site.crossing_flows(crossing).max(1));
    let claims = u64::from(site.claim_count());
    prove!(behind <= claims);
    behind as u32
}
