//! A short list of claims that keeps an allocator, and never uses it.

ghost use Rattle.std.specs.Prelude.{◌≡◌, ◌<◌, ◌≤◌, [], length, Contains};
ghost use Rattle.fleet_base.specs.Lists.{placed, RiseFrom};

use crate::numbers::ClaimNo;
use crate::placing::place_among;
use smallvec::SmallVec;
use std::alloc::Global;
use std::marker::Model;

/// A list of at most 3 claims, ascending by number. It takes no memory.
#[derive(Drop)]
pub struct Claims {
    claims: SmallVec<ClaimNo, 3>,
}

impl Model for Claims {
    ghost use Rattle.std.specs.Prelude.{List};
    ghost use Rattle.fleet_base.specs.declared.numbers.ClaimNo.{ClaimNo};

    ghost Value = { List ClaimNo };

    ghost use Rattle.fleet_base.specs.ClaimLists.{AreKept};

    ghost view = { λ c. c.claims.items };

    ghost invariant = { λ c. AreKept c.claims };
}

impl Claims {
    /// The empty list.
    pub fn new(alloc: Global) -> Claims
        ensures { result ≡ [] }
    {
        Claims {
            claims: SmallVec::new(alloc),
        }
    }

    /// The claims, which ascend strictly by number.
    pub fn list(&self) -> &[ClaimNo]
        ensures claims { result.now ≡ self.now }
        ensures ascending { RiseFrom 0 self.now }
        ensures short { length self.now ≤ 3 }
    {
        self.claims.as_slice()
    }

    /// Puts a claim that isn't in the list into its place by number.
    pub fn put(&mut self, claim: ClaimNo)
        requires missing { ¬ Contains self.old claim }
        requires room { length self.old < 3 }
        ensures { self.new ≡ placed self.old claim }
    {
        let place = place_among(self.claims.as_slice(), claim);
        let _there_is_room = self.claims.insert(place, claim);
    }
}
