//! Where the claims that a claim conflicts with are to be found.

ghost use Rattle.std.specs.Prelude.{◌≡◌, ℕ, ◌<◌, ◌≤◌, length, slice_get, Some, IfOk};
ghost use Rattle.fleet_base.specs.declared.numbers.ClaimGroup.{ClaimGroup};
ghost use Rattle.fleet_model.specs.Sites.{in_conflict};
ghost use Rattle.event_graph.specs.Reaches.{HasWithin, IsReached};

use fleet_base::limits::MAX_CLAIMS;
use fleet_base::numbers::{ClaimGroup, ClaimNo};
use std::alloc::{AllocError, Global};

/// The numbers from `first` up to but not `end`, among which all claims of one group are.
#[derive(Clone, Copy)]
pub(crate) struct Reach {
    pub(crate) first: u32,
    pub(crate) end: u32,
}

/// Whether two robots must not hold these claims at once.
#[tactic(auto, unfolding(fleet_model::specs::Sites::in_conflict))]
pub(crate) fn conflict(groups: &[ClaimGroup], one: ClaimNo, other: ClaimNo) -> bool
    ensures { result ≡ in_conflict groups.now one other }
{
    match (groups.get(one.0 as usize), groups.get(other.0 as usize)) {
        (Some(g), Some(h)) => g.group == h.group && (one.0 != other.0 || g.alone),
        _ => false,
    }
}

/// Where the claims of this group are.
fn reach_of(groups: &[ClaimGroup], group: u32) -> Reach
    requires { length groups.now ≤ MAX_CLAIMS }
    ensures within { HasWithin groups.now group result }
    ensures end { result.end ≤ length groups.now }
{
    let mut first = groups.len() as u32;
    let mut end = 0;
    for (place, claim) in groups.iter().enumerate() {
        if claim.group == group {
            first = first.min(place as u32);
            end = place as u32 + 1;
        }
    }
    Reach { first, end }
}

/// For each claim, where those of its group are.
pub(crate) fn reaches(alloc: Global, groups: &[ClaimGroup]) -> Result<Vec<Reach>, AllocError>
    requires { length groups.now ≤ MAX_CLAIMS }
    ensures { IfOk result (λ r. IsReached groups.now r.items) }
{
    let mut reaches = Vec::new(alloc);
    for claim in groups {
        reaches.push(reach_of(groups, claim.group))?;
    }
    Ok(reaches)
}

/// Where the claims in conflict with this one are.
pub(crate) fn reach_at(reaches: &[Reach], claim: ClaimNo) -> Option<Reach>
    ensures { result ≡ slice_get reaches.now claim.0 }
{
    reaches.get(claim.0 as usize).copied()
}
