//! What may be appended to a graph, whatever its events are.

ghost use Rattle.std.specs.Prelude.{true, IsTrue};
ghost use Rattle.fleet_base.specs.declared.numbers.Kind.TheVariants.{Acquire};
ghost use Rattle.fleet_model.specs.Lists.{In};
ghost use Rattle.compare_graphs.specs.Pairs.{FitsBehind, AreFit};

use fleet_base::numbers::{ClaimNo, Kind};

/// Whether each of these names one of so many claims, and each release comes behind an acquire of
/// its claim.
pub(crate) fn are_fit(claims: u32, kinds: &[Kind]) -> bool
    ensures { IsTrue result → AreFit claims kinds.now }
{
    for place in 0..kinds.len() {
        if !fits_behind(claims, &kinds[..place], kinds[place]) {
            return false;
        }
    }
    true
}

// Whether the kind fits behind these.
fn fits_behind(claims: u32, before: &[Kind], kind: Kind) -> bool
    ensures { IsTrue result → FitsBehind claims before.now kind }
{
    match kind {
        Kind::Acquire(claim) => claim.0 < claims,
        Kind::Move(_, _) => true,
        Kind::Release(claim) => claim.0 < claims && is_acquired(before, claim),
    }
}

// Whether one of these acquires the claim.
fn is_acquired(kinds: &[Kind], claim: ClaimNo) -> bool
    ensures { IsTrue result → In (Acquire claim) kinds.now }
{
    for kind in kinds {
        if let Kind::Acquire(taken) = *kind {
            if taken.0 == claim.0 {
                return true;
            }
        }
    }
    false
}
