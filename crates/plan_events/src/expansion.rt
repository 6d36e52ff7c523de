//! What a route does: its events, and the claims that it needs.

ghost use Rattle.std.specs.Prelude.{◌≡◌, ◌<◌, ℕ, None, ◌||◌, IfOk, IfErr, OnOk, All};
ghost use Rattle.std.specs.FinSet as set;
ghost use Rattle.fleet_base.specs.declared.limits.TheConstants.{MAX_CLAIMS};
ghost use Rattle.fleet_base.specs.declared.numbers.ClaimNo.{ClaimNo};
ghost use Rattle.fleet_model.specs.Sites.{has_claim, needs, steps, without};
ghost use Rattle.site_map.specs.Claims.{site_of};
ghost use Rattle.plan_events.specs.Shapes.{shape_cause, IsRefusal};

use crate::refused::ShapeRefused;
use crate::shape::check_shape;
use crate::steps::push_step;
use fleet_base::claim_set::ClaimSet;
use fleet_base::limits::MAX_CLAIMS;
use fleet_base::numbers::{CellNo, ClaimNo, Kind};
use site_map::site::Site;
use std::alloc::Global;

/// The expansion of the route: what a robot does, step by step. Refused is what `check_shape`
/// refuses, and then want of memory. It takes one buffer, of just the room that is needed.
pub fn expand(alloc: Global, site: &Site, cells: &[CellNo]) -> Result<Vec<Kind>, ShapeRefused>
    ensures accepted { OnOk result (shape_cause (site_of site.now) cells.now ≡ None) }
    ensures refused { IfErr result (IsRefusal (shape_cause (site_of site.now) cells.now)) }
    ensures steps { IfOk result (λ kinds. kinds.items ≡ steps (site_of site.now) cells.now) }
{
    let count = check_shape(site, cells)?;
    let mut kinds = Vec::with_capacity(alloc, count as usize)?;
    for at in 1..cells.len() {
        push_step(site, &mut kinds, cells[at - 1], cells[at])?;
    }
    Ok(kinds)
}

/// The claims that the route needs: those that its expansion acquires. It takes no memory.
pub fn needs(site: &Site, cells: &[CellNo]) -> ClaimSet
    requires { shape_cause (site_of site.now) cells.now ≡ None }
    ensures { (c : ClaimNo) → set.contains result c.0 ≡ has_claim (needs (site_of site.now) cells.now) c }
{
    let mut claims = ClaimSet::new();
    for at in 1..cells.len() {
        let held = site.footprint(cells[at - 1]);
        let wanted = site.footprint(cells[at]);
        put_without(&mut claims, wanted.list(), held.list());
    }
    claims
}

// Puts into the set those claims that aren't held.
fn put_without(found: &mut ClaimSet, claims: &[ClaimNo], held: &[ClaimNo])
    requires { All (λ c. c.0 < MAX_CLAIMS) claims.now }
    ensures { (c : ClaimNo) → set.contains found.new c.0 ≡ (has_claim (without claims.now held.now) c || set.contains found.old c.0) }
{
    for claim in claims {
        if !held.contains(claim) {
            found.put(*claim);
        }
    }
}
