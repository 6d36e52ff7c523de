//! The search for the least route.

ghost use Rattle.std.specs.Prelude.{◌≡◌, ℕ, ◌<◌, Some, None, IfOk, IfErr, IsSome};
ghost use Rattle.fleet_base.specs.declared.numbers.CellNo.{CellNo};
ghost use Rattle.fleet_model.specs.Sites.{IsSite};
ghost use Rattle.fleet_model.specs.Routes.{least_route as least_walk};
ghost use Rattle.site_map.specs.Claims.{site_of};
ghost use Rattle.route_plan.specs.Incoming.{AreIncoming};
ghost use Rattle.route_plan.specs.Labels.{has, label_at, label_of, IsLeastWithLabels};
ghost use Rattle.route_plan.specs.Tight.{IsDescentFrom, IsNextOf};
ghost use Rattle.route_plan.specs.declared.refused.RouteRefused.TheVariants as refused;

use crate::cell_set::CellSet;
use crate::incoming::Incoming;
use crate::labels::next_cell;
use crate::refused::RouteRefused;
use crate::route::{Labels, Route, label_in};
use crate::search::least_labels;
use fleet_base::numbers::CellNo;
use fleet_base::path::{NoMemory, Path};
use site_map::site::Site;
use std::alloc::{AllocError, Global};

/// The least route from the cell to the goal past the cells to avoid, with its cost and the label
/// of each cell. `Unreachable` only where no walk leads there, and `NoMemory` in place of any
/// answer. Its time grows like the links of the site times the logarithm of their number.
pub fn least_route(
    site: &Site,
    from: CellNo,
    goal: &CellSet,
    avoid: &CellSet,
    alloc: Global,
) -> Result<Route, RouteRefused>
    requires { from.0 < site.now.cells }
    ensures found { IfOk result (λ route. IsLeastWithLabels (site_of site.now) (has goal.now) (has avoid.now) from route) }
    ensures unreachable { IfErr result (λ e. e ≡ refused.Unreachable → least_walk (site_of site.now) (has goal.now) (has avoid.now) from ≡ None) }
{
    let incoming = Incoming::of(site, alloc)?;
    let labels = least_labels(site, &incoming, goal, avoid, alloc)?;
    let Some(cost) = label_in(&labels, from) else {
        return Err(RouteRefused::Unreachable);
    };
    let path = Path::from_vec(cells_of(site, &labels, from, alloc)?);
    Ok(Route { path, cost, labels })
}

/// The label of each cell: what the least route from it to the goal past the cells to avoid costs.
/// `incoming` is made of the same site. Its time grows like the links of the site times the
/// logarithm of their number.
pub fn labels_to(
    site: &Site,
    incoming: &Incoming,
    goal: &CellSet,
    avoid: &CellSet,
    alloc: Global,
) -> Result<Labels, NoMemory>
    requires { AreIncoming (site_of site.now) incoming.now }
    ensures { IfOk result (λ labels. (c : CellNo) → label_at labels c ≡ label_of (site_of site.now) (has goal.now) (has avoid.now) c) }
{
    let labels = least_labels(site, incoming, goal, avoid, alloc)?;
    Ok(Labels { labels })
}

// The cells of the least route from the cell, by the labels.
fn cells_of(
    site: &Site,
    labels: &[Option<u64>],
    from: CellNo,
    alloc: Global,
) -> Result<Vec<CellNo>, AllocError>
    requires known { from.0 < site.now.cells }
    requires site { IsSite (site_of site.now) }
    requires labelled { IsSome (label_at labels.now from) }
    requires ends { (c : CellNo) (e : ℕ) → label_at labels.now c ≡ Some e → IsNextOf (site_of site.now) (label_at labels.now) c None → e ≡ 0 }
    ensures { IfOk result (λ cells. IsDescentFrom (site_of site.now) (label_at labels.now) from cells.items) }
{
    let mut cells = Vec::new(alloc);
    cells.push(from)?;
    let mut at = from;
    while let Some(next) = next_cell(site, labels, at) {
        cells.push(next)?;
        at = next;
    }
    Ok(cells)
}
