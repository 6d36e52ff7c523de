//! The check of a route's shape.

ghost use Rattle.std.specs.Prelude.{◌≡◌, ◌≤◌, length, None, OnOk};
ghost use Rattle.fleet_model.specs.Sites.{steps};
ghost use Rattle.fleet_model.specs.Calls.{unknown_at, unlinked_at};
ghost use Rattle.site_map.specs.Claims.{site_of};
ghost use Rattle.plan_events.specs.Shapes.{refused_or, shape_cause};

use crate::refused::ShapeRefused;
use crate::steps::step_count;
use fleet_base::limits::MAX_ROUTE;
use fleet_base::numbers::CellNo;
use site_map::site::Site;

/// The number of events of the route. Refused are, in this order: fewer than 2 cells, more than
/// 1,024, a cell that isn't one of the site, and a cell that isn't linked from the one before it.
/// It never answers `NoMemory`.
pub fn check_shape(site: &Site, cells: &[CellNo]) -> Result<u32, ShapeRefused>
    ensures answer { result ≡ refused_or (shape_cause (site_of site.now) cells.now) (length (steps (site_of site.now) cells.now)) }
    ensures accepted { OnOk result (shape_cause (site_of site.now) cells.now ≡ None) }
{
    if cells.len() < 2 {
        return Err(ShapeRefused::Short);
    }
    if cells.len() > MAX_ROUTE as usize {
        return Err(ShapeRefused::TooLong);
    }
    if let Some(at) = unknown_place(site, cells) {
        return Err(ShapeRefused::UnknownCell { at });
    }
    if let Some(at) = unlinked_place(site, cells) {
        return Err(ShapeRefused::NoLink { at });
    }
    Ok(event_count(site, cells))
}

// The first place that names no cell of the site.
fn unknown_place(site: &Site, cells: &[CellNo]) -> Option<u32>
    requires { length cells.now ≤ 1024 }
    ensures { result ≡ unknown_at (site_of site.now) cells.now }
{
    let count = site.cell_count();
    for (at, cell) in cells.iter().enumerate() {
        if cell.0 >= count {
            return Some(at as u32);
        }
    }
    None
}

// The first place whose cell isn't linked from the one before it.
fn unlinked_place(site: &Site, cells: &[CellNo]) -> Option<u32>
    requires short { length cells.now ≤ 1024 }
    requires known { unknown_at (site_of site.now) cells.now ≡ None }
    ensures { result ≡ unlinked_at (site_of site.now) cells.now }
{
    for at in 1..cells.len() {
        if site.cost(cells[at - 1], cells[at]).is_none() {
            return Some(at as u32);
        }
    }
    None
}

// How many events the steps have.
fn event_count(site: &Site, cells: &[CellNo]) -> u32
    requires short { length cells.now ≤ 1024 }
    requires known { unknown_at (site_of site.now) cells.now ≡ None }
    ensures { result ≡ length (steps (site_of site.now) cells.now) }
{
    let mut count = 0;
    for at in 1..cells.len() {
        count += step_count(site, cells[at - 1], cells[at]);
    }
    count
}
