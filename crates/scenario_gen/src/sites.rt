// The site of a drill.
ghost use Rattle.std.specs.Prelude.{◌≡◌, ◌*◌, ◌+◌, ◌-◌, ◌<◌, ◌++◌, ◌∷◌, [], length, map, replicate, slice_set, slice_index_or, IfOk, OnOk};
ghost use Rattle.std.specs.List.{flat_map, range_with_len};
ghost use Rattle.site_map.specs.Built.{no_site};
ghost use Rattle.site_map.specs.Cells.{in_order};
ghost use Rattle.scenario_gen.specs.Grids.{after_link, before_cell, block, cell, corners, crossings, crossings_in, links, row_cells, site, with_drawn};

use crate::draws::Draws;
use crate::grid::Grid;
use fleet_base::numbers::CellNo;
use fleet_base::path::NoMemory;
use site_map::builder::SiteBuilder;
use site_map::site::Site;
use std::alloc::Global;

// The columns and rows in which crossings may begin.
const CORNERS: [u32; 4] = [1, 5, 9, 13];

// The site on the grid, whose links are drawn.
pub(crate) fn build_site(alloc: Global, grid: Grid, draws: &mut Draws) -> Result<Site, NoMemory>
    ensures site { IfOk result (λ s. s ≡ site grid.width grid.height draws.old.number) }
    ensures number { OnOk result (draws.new.number ≡ before_cell grid.width grid.height draws.old.number (grid.width * grid.height)) }
{
    let mut builder = SiteBuilder::new(alloc);
    add_cells(&mut builder, grid)?;
    add_crossings(&mut builder, grid)?;
    add_areas(alloc, &mut builder, grid)?;
    add_links(&mut builder, grid, draws)?;
    Ok(builder.finish())
}

// Adds the cells to a site that has nothing.
fn add_cells(builder: &mut SiteBuilder, grid: Grid) -> Result<(), NoMemory>
    requires { builder.old ≡ no_site }
    ensures { OnOk result (builder.new ≡ record no_site { cells = grid.width * grid.height; links = replicate (grid.width * grid.height) [] }) }
{
    for _ in 0..grid.cell_count() {
        if builder.cell().is_err() {
            return Err(NoMemory);
        }
    }
    Ok(())
}

// Adds the crossings.
fn add_crossings(builder: &mut SiteBuilder, grid: Grid) -> Result<(), NoMemory>
    requires { builder.old.cells ≡ grid.width * grid.height }
    ensures { OnOk result (builder.new ≡ record builder.old { crossings = builder.old.crossings ++ crossings grid.width grid.height }) }
{
    for row in &CORNERS {
        if *row + 1 < grid.height {
            add_crossings_in(builder, grid, *row)?;
        }
    }
    Ok(())
}

// Adds the crossings that begin in a row.
fn add_crossings_in(builder: &mut SiteBuilder, grid: Grid, row: u32) -> Result<(), NoMemory>
    requires cells { builder.old.cells ≡ grid.width * grid.height }
    requires row { row + 1 < grid.height }
    ensures { OnOk result (builder.new ≡ record builder.old { crossings = builder.old.crossings ++ crossings_in (grid.width * grid.height) grid.width row }) }
{
    for column in &CORNERS {
        if *column + 1 < grid.width {
            if builder.crossing(&block(grid, *column, row)).is_err() {
                return Err(NoMemory);
            }
        }
    }
    Ok(())
}

// The four cells in this column and the next, of this row and the next.
fn block(grid: Grid, column: u32, row: u32) -> [CellNo; 4]
    requires column { column + 1 < grid.width }
    requires row { row + 1 < grid.height }
    ensures { result ≡ block grid.width column row }
{
    let upper = row * grid.width + column;
    let lower = (row + 1) * grid.width + column;
    [
        CellNo(upper),
        CellNo(upper + 1),
        CellNo(lower),
        CellNo(lower + 1),
    ]
}

// Adds the first and the last row as areas.
fn add_areas(alloc: Global, builder: &mut SiteBuilder, grid: Grid) -> Result<(), NoMemory>
    requires { builder.old.cells ≡ grid.width * grid.height }
    ensures { OnOk result (builder.new ≡ record builder.old { areas = builder.old.areas ++ in_order (grid.width * grid.height) (row_cells grid.width 0) ∷ in_order (grid.width * grid.height) (row_cells grid.width (grid.height - 1)) ∷ [] }) }
{
    let top = row_cells(alloc, grid, 0)?;
    if builder.area(&top).is_err() {
        return Err(NoMemory);
    }
    let bottom = row_cells(alloc, grid, grid.height - 1)?;
    if builder.area(&bottom).is_err() {
        return Err(NoMemory);
    }
    Ok(())
}

// The cells of a row.
fn row_cells(alloc: Global, grid: Grid, row: u32) -> Result<Vec<CellNo>, NoMemory>
    requires { row < grid.height }
    ensures { IfOk result (λ cells. cells.items ≡ row_cells grid.width row) }
{
    let first = row * grid.width;
    let mut cells = Vec::new(alloc);
    for column in 0..grid.width {
        cells.extend_from_slice(&[CellNo(first + column)])?;
    }
    Ok(cells)
}

// Adds the links of each cell, whose costs are drawn.
fn add_links(builder: &mut SiteBuilder, grid: Grid, draws: &mut Draws) -> Result<(), NoMemory>
    requires { builder.old.links ≡ replicate (grid.width * grid.height) [] }
    ensures built { OnOk result (builder.new ≡ record builder.old { links = links grid.width grid.height draws.old.number }) }
    ensures number { OnOk result (draws.new.number ≡ before_cell grid.width grid.height draws.old.number (grid.width * grid.height)) }
{
    for cell in 0..grid.cell_count() {
        add_link(builder, cell, grid.across(cell), draws)?;
        add_link(builder, cell, grid.along(cell), draws)?;
    }
    Ok(())
}

// Adds the link from a cell to that one, where there is one.
fn add_link(
    builder: &mut SiteBuilder,
    from: u32,
    to: Option<u32>,
    draws: &mut Draws,
) -> Result<(), NoMemory>
    ensures built { OnOk result (builder.new ≡ record builder.old { links = slice_set builder.old.links from (with_drawn to draws.old.number (slice_index_or builder.old.links from [])) }) }
    ensures number { draws.new.number ≡ after_link to draws.old.number }
{
    let Some(to) = to else {
        return Ok(());
    };
    let cost = 1 + draws.draw(9);
    if builder.link(CellNo(from), CellNo(to), cost).is_err() {
        return Err(NoMemory);
    }
    Ok(())
}
