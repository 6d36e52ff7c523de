//! Numbering the claims of crossings.

ghost use Rattle.std.specs.Prelude.{◌≡◌, ℕ, ◌+◌, ◌<◌, ◌≤◌, length, map, slice_index};
ghost use Rattle.site_map.specs.Crossings.{completed, crossing_claims};
ghost use Rattle.site_map.specs.Inside.{AreNumbered};

use crate::crossing::Crossing;

// Numbers the claims crossing by crossing: the first claim of each, and the crossing of each claim.
pub(crate) fn number_claims(crossings: &[Crossing], firsts: &mut [u32], owners: &mut [u32])
    requires firsts_are_all { length firsts.old ≡ length crossings.now }
    requires owners_are_all { length owners.old ≡ crossing_claims (map completed crossings.now) }
    requires few { length owners.old ≤ 256 }
    ensures { AreNumbered (map completed crossings.now) firsts.new owners.new }
{
    let mut next = 0;
    for (number, crossing) in crossings.iter().enumerate() {
        let count = crossing.claim_count();
        firsts[number] = next as u32;
        fill(owners, next, count, number as u32);
        next += count;
    }
}

// Writes the number to so many places, from one on.
fn fill(owners: &mut [u32], from: usize, count: usize, number: u32)
    requires { from + count ≤ length owners.old }
    ensures filled { (k : ℕ) → from ≤ k → k < from + count → slice_index owners.new k ≡ number }
    ensures others { (k : ℕ) → k < from → slice_index owners.new k ≡ slice_index owners.old k }
{
    for place in from..from + count {
        owners[place] = number;
    }
}
