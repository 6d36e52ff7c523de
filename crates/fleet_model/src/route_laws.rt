//! Laws of least routes, detours and the events of a route.

ghost use Rattle.std.specs.Prelude.{◌≡◌, ℕ, ◌*◌, ◌≤◌, Bool, List, Option, Some, None, length, slice_get, true, false};
ghost use Rattle.fleet_model.specs.Lists.{has_cell};
ghost use Rattle.fleet_base.specs.declared.numbers.CellNo.{CellNo};
ghost use Rattle.fleet_base.specs.declared.numbers.ClaimNo.{ClaimNo};
ghost use Rattle.fleet_model.specs.Sites.{Site, IsSite, IsWalk, steps};
ghost use Rattle.fleet_model.specs.Plans.{Fleet, end_of, IsRoute, IsBlocker};
ghost use Rattle.fleet_model.specs.Routes.{IsLeastRoute, leads_to, least_route};
ghost use Rattle.fleet_model.specs.Calls.{detour_of};
ghost use Rattle.fleet_model.specs.Journals.{last_of};

/// The route that is found is the least of all walks to the goal, of any length; where none is found there is no such walk; and a least route is one, so it is the one that is found.
pub fn least_route_is_least()
    ensures found { (site : Site) (goal avoid : CellNo → Bool) (from : CellNo) (route : List CellNo) → IsSite site → least_route site goal avoid from ≡ Some route → IsLeastRoute site goal avoid from route }
    ensures none { (site : Site) (goal avoid : CellNo → Bool) (from : CellNo) → IsSite site → least_route site goal avoid from ≡ None → (other : List CellNo) → slice_get other 0 ≡ Some from → IsWalk site other → leads_to goal avoid other ≡ true → ⊥ }
    ensures one { (site : Site) (goal avoid : CellNo → Bool) (from : CellNo) (v w : List CellNo) → IsLeastRoute site goal avoid from v → IsLeastRoute site goal avoid from w → v ≡ w }
    ensures met { (site : Site) (goal avoid : CellNo → Bool) (from : CellNo) (route : List CellNo) → IsSite site → IsLeastRoute site goal avoid from route → least_route site goal avoid from ≡ Some route }
{}

/// A detour is a legal route, where the robot doesn't end in the goal already; it has no blocker; and it is the detour to its last cell alone.
pub fn detours_are_free()
    ensures legal { (m : Fleet) (r : ℕ) (goal : CellNo → Bool) (route : List CellNo) → IsSite m.site → goal (end_of m r) ≡ false → detour_of m r goal ≡ Some route → IsRoute m r route }
    ensures free { (m : Fleet) (r : ℕ) (goal : CellNo → Bool) (route : List CellNo) (c : ClaimNo) (q : ℕ) → IsSite m.site → detour_of m r goal ≡ Some route → IsBlocker m r route c q → ⊥ }
    ensures last { (m : Fleet) (r : ℕ) (goal : CellNo → Bool) (route : List CellNo) → IsSite m.site → detour_of m r goal ≡ Some route → detour_of m r (has_cell (last_of route)) ≡ Some route }
{}

/// A route of at least two cells has an event, no route has more than seven for each of its cells, and one of at most 1,024 cells has at most 7,161.
pub fn routes_are_short()
    ensures some { (site : Site) (route : List CellNo) → 2 ≤ length route → 1 ≤ length (steps site route) }
    ensures each { (site : Site) (route : List CellNo) → IsSite site → length (steps site route) ≤ 7 * length route }
    ensures most { (site : Site) (route : List CellNo) → IsSite site → length route ≤ 1024 → length (steps site route) ≤ 7161 }
{}
