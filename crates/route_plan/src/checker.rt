//! The check of a route.

ghost use Rattle.std.specs.Prelude.{◌↔◌, ◌<◌, IsTrue};
ghost use Rattle.std.specs.Bool.{OnTrue};
ghost use Rattle.site_map.specs.Claims.{site_of};
ghost use Rattle.route_plan.specs.Labels.{has, label_at, IsLeastWithLabels};
ghost use Rattle.route_plan.specs.Tight.{IsDescent, IsDescentFrom, IsNext};

use crate::cell_set::CellSet;
use crate::labels::{are_least, next_cell};
use crate::route::{Route, label_in};
use fleet_base::numbers::CellNo;
use site_map::site::Site;

/// Whether this is the least route from the cell to the goal past the cells to avoid, with its
/// cost and the label of each cell. It sees only what it is handed and takes no memory. Its time
/// grows like the links of the site.
pub fn check_route(
    site: &Site,
    from: CellNo,
    goal: &CellSet,
    avoid: &CellSet,
    route: &Route,
) -> bool
    requires { from.0 < site.now.cells }
    ensures { IsTrue result ↔ IsLeastWithLabels (site_of site.now) (has goal.now) (has avoid.now) from route.now }
{
    let labels = route.labels.as_slice();
    if !are_least(site, goal, avoid, labels) {
        return false;
    }
    label_in(labels, from) == Some(route.cost) && descends_from(site, labels, from, route.cells())
}

// Whether the cells begin with this one and go on to the goal by the labels, as a least walk.
fn descends_from(site: &Site, labels: &[Option<u64>], from: CellNo, cells: &[CellNo]) -> bool
    requires { from.0 < site.now.cells }
    ensures { IsTrue result ↔ IsDescentFrom (site_of site.now) (label_at labels.now) from cells.now }
{
    match cells {
        [] => false,
        [first, rest @ ..] => *first == from && descends(site, labels, from, rest),
    }
}

// Whether each step goes to the least cell to which a least walk can go next, and the last label
// is 0.
fn descends(site: &Site, labels: &[Option<u64>], from: CellNo, cells: &[CellNo]) -> bool
    requires { from.0 < site.now.cells }
    ensures { IsTrue result ↔ IsDescent (site_of site.now) (label_at labels.now) from cells.now }
{
    let mut at = from;
    for cell in cells {
        if !is_next(site, labels, at, *cell) {
            return false;
        }
        at = *cell;
    }
    label_in(labels, at) == Some(0)
}

// Whether the cell is the least to which a least walk can go next.
fn is_next(site: &Site, labels: &[Option<u64>], at: CellNo, cell: CellNo) -> bool
    requires { at.0 < site.now.cells }
    ensures next { IsTrue result ↔ IsNext (site_of site.now) (label_at labels.now) at cell }
    ensures known { OnTrue result (cell.0 < site.now.cells) }
{
    next_cell(site, labels, at) == Some(cell)
}
