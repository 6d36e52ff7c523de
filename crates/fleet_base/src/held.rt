//! A short list of claims in a fixed array.

ghost use Rattle.std.specs.Prelude.{◌≡◌, ◌<◌, ◌≤◌, ◌==◌, not, [], length, Contains};
ghost use Rattle.std.specs.List.{filter};
ghost use Rattle.fleet_base.specs.Lists.{placed, RiseFrom};

use crate::numbers::ClaimNo;
use crate::placing::place_among;
use std::marker::Model;

/// A list of at most 6 claims, ascending by number. It takes no memory.
#[derive(Drop)]
pub struct Held {
    count: usize,
    places: [ClaimNo; 6],
}

impl Model for Held {
    ghost use Rattle.std.specs.Prelude.{List, take};
    ghost use Rattle.fleet_base.specs.declared.numbers.ClaimNo.{ClaimNo};

    ghost Value = { List ClaimNo };

    ghost use Rattle.fleet_base.specs.HeldLists.{IsFilled};

    ghost view = { λ h. take h.count h.places };

    ghost invariant = { IsFilled };
}

impl Held {
    /// The empty list.
    pub fn new() -> Held
        ensures { result ≡ [] }
    {
        Held {
            count: 0,
            places: [ClaimNo(0); 6],
        }
    }

    /// The claims, which ascend strictly by number.
    pub fn list(&self) -> &[ClaimNo]
        ensures claims { result.now ≡ self.now }
        ensures ascending { RiseFrom 0 self.now }
        ensures short { length self.now ≤ 6 }
    {
        &self.places[..self.count]
    }

    /// Puts a claim that isn't in the list into its place by number.
    pub fn put(&mut self, claim: ClaimNo)
        requires missing { ¬ Contains self.old claim }
        requires room { length self.old < 6 }
        ensures { self.new ≡ placed self.old claim }
    {
        let place = place_among(&self.places[..self.count], claim);
        self.places[self.count] = claim;
        self.count += 1;
        self.places[place..self.count].rotate_right(1);
    }

    /// Takes a claim out of the list, where it is.
    pub fn remove(&mut self, claim: ClaimNo)
        ensures { self.new ≡ filter (λ c. not (c.0 == claim.0)) self.old }
    {
        let mut kept = 0;
        for place in 0..self.count {
            let held = self.places[place];
            if held.0 != claim.0 {
                self.places[kept] = held;
                kept += 1;
            }
        }
        self.count = kept;
    }
}
