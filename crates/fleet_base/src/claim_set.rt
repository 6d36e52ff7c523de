//! A set of claims in place.

ghost use Rattle.std.specs.Prelude.{◌≡◌, ℕ, ◌<◌, ◌≤◌, true, false, IfSome, IfNone};
ghost use Rattle.std.specs.FinSet as set;

use crate::limits::MAX_CLAIMS;
use crate::numbers::ClaimNo;
use bit_set::BitSet;
use std::marker::Model;

/// A set of claims, each with a number below 1,280. It takes no memory. Contracts see the set of
/// the claims' numbers.
#[derive(Clone, Copy)]
pub struct ClaimSet {
    // One bit for each of 1,280 claims.
    numbers: BitSet<20>,
}

impl Model for ClaimSet {
    ghost use Rattle.std.specs.Ordering.{nat_cmp};
    ghost use Rattle.std.specs.Coded.{coded_ℕ};
    ghost use Rattle.std.specs.FinSet as set;

    ghost Value = { set.FinSet nat_cmp };

    ghost coded = { set.code coded_ℕ };

    ghost view = { λ s. s.numbers };

    ghost inverse = { λ numbers. record { numbers = numbers } };
}

impl ClaimSet {
    /// The empty set.
    pub fn new() -> Self
        ensures { result ≡ set.empty }
    {
        ClaimSet {
            numbers: BitSet::new(),
        }
    }

    /// Whether the claim is in the set.
    pub fn holds(&self, claim: ClaimNo) -> bool
        requires { claim.0 < MAX_CLAIMS }
        ensures { result ≡ set.contains self.now claim.0 }
    {
        self.numbers.contains(claim.0)
    }

    /// Puts the claim into the set, where it may be already.
    pub fn put(&mut self, claim: ClaimNo)
        requires { claim.0 < MAX_CLAIMS }
        ensures { self.new ≡ set.insert self.old claim.0 }
    {
        self.numbers.insert(claim.0);
    }

    /// The least claim of the set that isn't below `from`. None exactly where there is none.
    pub fn next(&self, from: ClaimNo) -> Option<ClaimNo>
        ensures member { IfSome result (λ c. set.contains self.now c.0 ≡ true) }
        ensures behind { IfSome result (λ c. from.0 ≤ c.0) }
        ensures below { IfSome result (λ c. c.0 < MAX_CLAIMS) }
        ensures least { IfSome result (λ c. (n : ℕ) →
            from.0 ≤ n → set.contains self.now n ≡ true → c.0 ≤ n) }
        ensures none { IfNone result ((n : ℕ) → from.0 ≤ n → set.contains self.now n ≡ false) }
    {
        self.numbers.next(from.0).map(ClaimNo)
    }
}
