//! The claims of a robot's end, in place.

ghost use Rattle.std.specs.Prelude.{◌≡◌, ◌≤◌, length};

use fleet_base::numbers::ClaimNo;
use std::marker::Model;

// At most 3 claims. They take no memory. Contracts see the list of the claims.
#[derive(Drop)]
pub(crate) struct End {
    count: usize,
    places: [ClaimNo; 3],
}

impl Model for End {
    ghost use Rattle.std.specs.Prelude.{◌≤◌, List, take};
    ghost use Rattle.fleet_base.specs.declared.numbers.ClaimNo.{ClaimNo};

    ghost Value = { List ClaimNo };

    ghost view = { λ e. take e.count e.places };

    ghost invariant = { λ e. e.count ≤ 3 };
}

impl End {
    // Just these claims.
    pub(crate) fn of(claims: &[ClaimNo]) -> End
        requires { length claims.now ≤ 3 }
        ensures { result ≡ claims.now }
    {
        let mut places = [ClaimNo(0); 3];
        for (place, claim) in claims.iter().enumerate() {
            places[place] = *claim;
        }
        End {
            count: claims.len(),
            places,
        }
    }

    // The claims.
    pub(crate) fn claims(&self) -> &[ClaimNo]
        ensures { result.now ≡ self.now }
    {
        &self.places[..self.count]
    }
}
