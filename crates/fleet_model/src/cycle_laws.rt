//! Laws about blockers, deferrals and the least cycle of deferrals.

ghost use Rattle.std.specs.Prelude.{◌≡◌, ◌↔◌, ◌<◌, ◌≤◌, ◌⊎◌, ℕ, Bool, true, List, length, Some, None};
ghost use Rattle.fleet_base.specs.declared.numbers.CellNo.{CellNo};
ghost use Rattle.fleet_base.specs.declared.numbers.ClaimNo.{ClaimNo};
ghost use Rattle.fleet_model.specs.Cycles.{IsLeastCycle};
ghost use Rattle.fleet_model.specs.Deferral.{ends, blockers, least_blocker};
ghost use Rattle.fleet_model.specs.Lists.{In};
ghost use Rattle.fleet_model.specs.Plans.{Fleet, IsBlocker};
ghost use Rattle.fleet_model.specs.Sites.{needs};
ghost use Rattle.fleet_model.specs.States.{State, is_deferred_on, IsDeferredOn, cycle_of};

/// At most one list is the least cycle through a number.
pub fn least_cycle_is_one()
    ensures one { (edge : ℕ → ℕ → Bool) (r : ℕ) (xs ys : List ℕ) → IsLeastCycle edge r xs → IsLeastCycle edge r ys → xs ≡ ys }
{}

/// In a state with a place for the pending route of each robot, the cycle that a block names is
/// the least cycle of deferrals through the robot: the shortest, and of these the least in the
/// order of a dictionary; it is empty where there is none.
pub fn cycle_is_least()
    ensures least { (s : State) (r : ℕ) → length s.pending ≡ length s.fleet.starts → IsLeastCycle (is_deferred_on s) r (cycle_of s r) }
{}

/// A claim with a robot is among the blockers of a route exactly where the robot blocks the route
/// by that claim.
pub fn blockers_are_listed()
    ensures listed { (m : Fleet) (r : ℕ) (route : List CellNo) (c : ClaimNo) (q : ℕ) → In {A = ClaimNo × ℕ} (c, q) (blockers m.site (ends m) r (needs m.site route)) ↔ IsBlocker m r route c q }
{}

/// A route has no least blocker exactly where it has no blocker. Its least blocker is a blocker,
/// and no blocker has a lesser claim, or the same claim and a lesser robot.
pub fn least_blocker_is_least()
    ensures absent { (m : Fleet) (r : ℕ) (route : List CellNo) → (least_blocker m.site (ends m) r (needs m.site route) ≡ None) ↔ ((c : ClaimNo) (q : ℕ) → IsBlocker m r route c q → ⊥) }
    ensures blocks { (m : Fleet) (r : ℕ) (route : List CellNo) (b : ClaimNo × ℕ) → least_blocker m.site (ends m) r (needs m.site route) ≡ Some b → IsBlocker m r route b.0 b.1 }
    ensures least { (m : Fleet) (r : ℕ) (route : List CellNo) (b : ClaimNo × ℕ) (c : ClaimNo) (q : ℕ) → least_blocker m.site (ends m) r (needs m.site route) ≡ Some b → IsBlocker m r route c q → (b.0.0 < c.0) ⊎ ((b.0.0 ≡ c.0) × (b.1 ≤ q)) }
{}

/// The test of deferral holds exactly where the robot has a route pending that the other blocks.
pub fn deferral_is_a_test()
    ensures exact { (s : State) (r q : ℕ) → (is_deferred_on s r q ≡ true) ↔ IsDeferredOn s r q }
{}
