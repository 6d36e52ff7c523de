//! Where a claim belongs in a list that ascends.

ghost use Rattle.std.specs.Prelude.{◌≡◌, ◌≤◌, length};
ghost use Rattle.fleet_base.specs.Lists.{count_below};

use crate::numbers::ClaimNo;

/// The blank claim of a place that isn't used.
impl Default for ClaimNo {
    ghost is_default = { λ c. c.0 ≡ 0 };

    fn default() -> ClaimNo {
        ClaimNo(0)
    }
}

/// The place of a claim in a list that ascends: how many claims from the front on have numbers
/// below its number.
pub(crate) fn place_among(claims: &[ClaimNo], claim: ClaimNo) -> usize
    ensures within { result ≤ length claims.now }
    ensures counted { result ≡ count_below claims.now claim }
{
    claims.iter().take_while(|c| c.0 < claim.0).count()
}
