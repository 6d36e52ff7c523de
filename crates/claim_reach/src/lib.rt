//! Which claims conflict with a claim, and between which numbers all of them are.
#![tactic(auto)]

ghost use Rattle.std.specs.Prelude.{◌≡◌, ℕ, ◌+◌, ◌<◌, ◌≤◌, true, length, nat_eq, slice_get, Some, IfOk, MatchOption};
ghost use Rattle.std.specs.HashMap.{get};
ghost use Rattle.fleet_base.specs.declared.numbers.ClaimNo.{ClaimNo};
ghost use Rattle.fleet_model.specs.Sites.{in_conflict};
ghost use Rattle.claim_reach.specs.Reaches.{IsOfGroup, SpansGroup, AreReaches, IsSingle};

use fleet_base::limits::MAX_CLAIMS;
use fleet_base::numbers::{ClaimGroup, ClaimNo};
use fleet_base::path::NoMemory;
use std::alloc::{AllocError, Global};
use std::collections::HashMap;

/// The claim numbers from `first` up to but not `end`.
#[derive(Clone, Copy, Debug, PartialEq, Eq)]
pub struct Reach {
    pub first: u32,
    pub end: u32,
}

/// Whether two robots must not hold these claims at once. No claim that isn't there conflicts.
#[tactic(auto, unfolding(fleet_model::specs::Sites::in_conflict))]
pub fn conflict(groups: &[ClaimGroup], one: ClaimNo, other: ClaimNo) -> bool
    ensures { result ≡ in_conflict groups.now one other }
{
    match (groups.get(one.0 as usize), groups.get(other.0 as usize)) {
        (Some(g), Some(h)) => g.group == h.group && (one.0 != other.0 || g.alone),
        _ => false,
    }
}

// The claims from the first of the span, where there is one, up to this claim.
fn widened(span: Option<Reach>, claim: u32) -> Reach
    requires { claim < MAX_CLAIMS }
    ensures first { MatchOption span (result.first ≡ claim) (λ old. result.first ≡ old.first) }
    ensures end { result.end ≡ claim + 1 }
{
    Reach {
        first: span.map_or(claim, |old| old.first),
        end: claim + 1,
    }
}

// Of each group the claims from its first to its last one.
fn spans(alloc: Global, groups: &[ClaimGroup]) -> Result<HashMap<u32, Reach>, AllocError>
    requires { length groups.now ≤ MAX_CLAIMS }
    ensures { IfOk result (λ s. (group : ℕ) → MatchOption (get nat_eq s group)
        ((d : ℕ) → IsOfGroup groups.now group d → ⊥) (SpansGroup groups.now group)) }
{
    let mut spans: HashMap<u32, Reach> = HashMap::new(alloc);
    for (place, claim) in groups.iter().enumerate() {
        let span = spans.get(&claim.group).copied();
        spans.insert(claim.group, widened(span, place as u32))?;
    }
    Ok(spans)
}

/// For each claim the claims from the first to the last one of its group. All claims in conflict
/// with it are among them, and where it is the only one of its group they are it alone.
pub fn reaches(alloc: Global, groups: &[ClaimGroup]) -> Result<Vec<Reach>, NoMemory>
    requires { length groups.now ≤ MAX_CLAIMS }
    ensures groups { IfOk result (λ r. AreReaches groups.now r.items) }
    ensures conflicts { IfOk result (λ r. (c d : ClaimNo) (reach : Reach) → slice_get r.items c.0 ≡ Some reach
        → in_conflict groups.now c d ≡ true → (reach.first ≤ d.0) × (d.0 < reach.end)) }
    ensures single { IfOk result (λ r. (c : ℕ) (reach : Reach) → slice_get r.items c ≡ Some reach
        → IsSingle groups.now c → (reach.first ≡ c) × (reach.end ≡ c + 1)) }
{
    let spans = spans(alloc, groups)?;
    let mut reaches = Vec::with_capacity(alloc, groups.len())?;
    for claim in groups {
        let Some(span) = spans.get(&claim.group) else {
            unreachable!();
        };
        reaches.push_reserved(*span);
    }
    Ok(reaches)
}
