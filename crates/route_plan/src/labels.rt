//! How labels agree with each other along links.

ghost use Rattle.std.specs.Prelude.{◌≡◌, ◌↔◌, ◌<◌, ◌≤◌, drop, is_none, IsTrue, IfSome};
ghost use Rattle.std.specs.List.{list_all};
ghost use Rattle.fleet_base.specs.declared.limits.TheConstants.{MAX_CELLS};
ghost use Rattle.fleet_base.specs.declared.numbers.CellNo.{CellNo};
ghost use Rattle.fleet_model.specs.Sites.{links_from, IsSite};
ghost use Rattle.site_map.specs.Cells.{LinksRise};
ghost use Rattle.site_map.specs.Claims.{site_of};
ghost use Rattle.route_plan.specs.Labels.{has, label_at, label_of};
ghost use Rattle.route_plan.specs.Tight.{adds_up, agrees as all_agree, agrees_with, is_within, IsNextOf};

use crate::cell_set::CellSet;
use crate::route::label_in;
use fleet_base::numbers::{CellNo, Link};
use site_map::site::Site;

// Whether each cell has its label.
pub(crate) fn are_least(
    site: &Site,
    goal: &CellSet,
    avoid: &CellSet,
    labels: &[Option<u64>],
) -> bool
    ensures least { IsTrue result ↔ ((c : CellNo) → label_at labels.now c ≡ label_of (site_of site.now) (has goal.now) (has avoid.now) c) }
    ensures site { IsSite (site_of site.now) }
{
    let count = site.cell_count();
    for number in 0..count {
        if !agrees(site, goal, avoid, labels, CellNo(number)) {
            return false;
        }
    }
    have_none_from(labels, count)
}

// Whether no cell from this number on has a label.
fn have_none_from(labels: &[Option<u64>], first: u32) -> bool
    ensures { result ≡ list_all (λ o. is_none o) (drop first labels.now) }
{
    labels
        .iter()
        .skip(first as usize)
        .all(|label| label.is_none())
}

// Whether the label of the cell agrees with those of the cells that it is linked to.
fn agrees(
    site: &Site,
    goal: &CellSet,
    avoid: &CellSet,
    labels: &[Option<u64>],
    cell: CellNo,
) -> bool
    requires known { cell.0 < site.now.cells }
    requires limit { site.now.cells ≤ MAX_CELLS }
    ensures agrees { result ≡ all_agree (has goal.now) (has avoid.now) (label_at labels.now) (links_from (site_of site.now) cell) cell }
    ensures ascending { LinksRise 0 (links_from (site_of site.now) cell) }
{
    let label = label_in(labels, cell);
    let links = site.links(cell);
    if avoid.holds(cell) {
        label.is_none()
    } else if goal.holds(cell) {
        label == Some(0)
    } else {
        agrees_with(labels, links, label)
    }
}

// Whether the label agrees with those of the cells that the links lead to: it isn't more than what
// any link gives, and one link gives it.
fn agrees_with(labels: &[Option<u64>], links: &[Link], label: Option<u64>) -> bool
    ensures { result ≡ agrees_with (label_at labels.now) links.now label }
{
    match label {
        None => links.iter().all(|link| is_without_label(labels, *link)),
        Some(cost) => {
            links.iter().all(|link| is_within(labels, *link, cost))
                && links.iter().any(|link| is_tight(labels, *link, label))
        }
    }
}

// Whether the cell that the link leads to has no label.
fn is_without_label(labels: &[Option<u64>], link: Link) -> bool
    ensures { result ≡ is_none (label_at labels.now link.to) }
{
    label_in(labels, link.to).is_none()
}

// Whether the label isn't more than the way over the link.
fn is_within(labels: &[Option<u64>], link: Link, label: u64) -> bool
    ensures { result ≡ is_within label link.cost (label_at labels.now link.to) }
{
    match label_in(labels, link.to) {
        None => true,
        Some(rest) => label.saturating_sub(u64::from(link.cost)) <= rest,
    }
}

// Whether the label is what the way over the link costs.
fn is_tight(labels: &[Option<u64>], link: Link, label: Option<u64>) -> bool
    ensures { result ≡ adds_up label (Some link.cost) (label_at labels.now link.to) }
{
    match (label, label_in(labels, link.to)) {
        (Some(all), Some(rest)) => {
            let cost = u64::from(link.cost);
            all >= cost && all - cost == rest
        }
        _ => false,
    }
}

// The least cell to which a least walk from the cell can go next, by the labels.
pub(crate) fn next_cell(site: &Site, labels: &[Option<u64>], at: CellNo) -> Option<CellNo>
    requires { at.0 < site.now.cells }
    ensures next { IsNextOf (site_of site.now) (label_at labels.now) at result }
    ensures known { IfSome result (λ c. c.0 < site.now.cells) }
{
    let label = label_in(labels, at);
    let links = site.links(at);
    let link = links.iter().find(|link| is_tight(labels, **link, label))?;
    Some(link.to)
}
