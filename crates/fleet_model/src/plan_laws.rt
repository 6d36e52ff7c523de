//! The laws of plans: walks and allowed orders are legal, merges keep every order and forbid as
//! few as is safe, deferral is exact, and withdrawals keep a plan good.

ghost use Rattle.std.specs.Prelude.{◌≡◌, ◌≢◌, ◌≤◌, ℕ, List, length, Some, slice_get, true, false};
ghost use Rattle.fleet_base.specs.declared.numbers.CellNo.{CellNo};
ghost use Rattle.fleet_base.specs.declared.numbers.ClaimNo.{ClaimNo};
ghost use Rattle.fleet_base.specs.declared.numbers.Event.{Event};
ghost use Rattle.fleet_model.specs.Lists.{In};
ghost use Rattle.fleet_model.specs.Sites.{Site, IsSite, in_conflict, footprint_of, has_claim, steps_from, last_cell};
ghost use Rattle.fleet_model.specs.Replays.{Spot, IsStanding, CanDoAll, after_kinds};
ghost use Rattle.fleet_model.specs.Plans.{Fleet, is_done, IsReady, IsBehind, IsSafe, IsAllowed, IsBlocker, Insertion, IsInsertion, IsSafeInsertion, IsAllowedBy, IsRoute, route_events, merged, end_of, withdrawn, removable_tail, IsRemovableTail};
ghost use Rattle.fleet_model.specs.Good.{IsGoodPlan};

/// The steps of a walk are legal for a robot alone that stands at its beginning, and leave it in the
/// last cell with the footprint of that cell.
pub fn walks_alone()
    ensures legal { (site : Site) (s : Spot) (a : CellNo) (cells : List CellNo) → IsSite site → IsStanding site s a → CanDoAll site s (steps_from site a cells) }
    ensures stands { (site : Site) (s : Spot) (a : CellNo) (cells : List CellNo) → IsSite site → IsStanding site s a → IsStanding site (after_kinds s (steps_from site a cells)) (last_cell a cells) }
{}

/// Whatever is reported in an allowed order of a good plan is a legal replay.
pub fn orders_are_safe()
    ensures safe { (m : Fleet) → IsSite m.site → IsGoodPlan m → IsSafe m }
{}

/// Where an event of a good plan is unfinished, some event is ready.
pub fn some_ready()
    ensures ready { (m : Fleet) (e : Event) → IsGoodPlan m → In e m.plan → is_done m.finished e ≡ false → (f : Event) × IsReady (IsBehind m.site.groups) m.plan m.finished f }
{}

/// A merge removes no allowed order.
pub fn merge_allows()
    ensures allowed { (m : Fleet) (r : ℕ) (route : List CellNo) (order : List Event) → IsGoodPlan m → IsAllowed m order → IsAllowed (merged m r route) order }
{}

/// A merge of a legal route without a blocker keeps a plan good.
pub fn merge_keeps_good()
    ensures good { (m : Fleet) (r : ℕ) (a : CellNo) (route : List CellNo) → IsSite m.site → IsGoodPlan m → slice_get m.starts r ≡ Some a → IsRoute m r route → ((c : ClaimNo) (q : ℕ) → IsBlocker m r route c q → ⊥) → IsGoodPlan (merged m r route) }
{}

/// No insertion of a route with a blocker is safe, and of a legal route without one some is.
pub fn deferral_is_exact()
    ensures blocked { (m : Fleet) (r : ℕ) (route : List CellNo) (c : ClaimNo) (q : ℕ) (pairs : Insertion) → IsSite m.site → IsGoodPlan m → IsBlocker m r route c q → IsInsertion m (route_events m r route) pairs → IsSafeInsertion m (route_events m r route) pairs → ⊥ }
    ensures unblocked { (m : Fleet) (r : ℕ) (a : CellNo) (route : List CellNo) → IsSite m.site → IsGoodPlan m → slice_get m.starts r ≡ Some a → IsRoute m r route → ((c : ClaimNo) (q : ℕ) → IsBlocker m r route c q → ⊥) → (pairs : Insertion) × IsInsertion m (route_events m r route) pairs × IsSafeInsertion m (route_events m r route) pairs }
{}

/// The merged plan allows each order that a safe insertion of the route allows.
pub fn merge_is_least()
    ensures allowed { (m : Fleet) (r : ℕ) (route : List CellNo) (pairs : Insertion) (order : List Event) → IsSite m.site → IsGoodPlan m → IsInsertion m (route_events m r route) pairs → IsSafeInsertion m (route_events m r route) pairs → IsAllowedBy m (route_events m r route) pairs order → IsAllowed (merged m r route) order }
{}

/// A withdrawal takes the longest list of a robot's events that may be removed, keeps a plan good,
/// and leaves every other robot its end.
pub fn withdrawal_keeps_good()
    ensures removable { (m : Fleet) (r : ℕ) → IsGoodPlan m → IsRemovableTail m r (removable_tail m r) }
    ensures longest { (m : Fleet) (r : ℕ) (tail : List Event) → IsGoodPlan m → IsRemovableTail m r tail → length tail ≤ length (removable_tail m r) }
    ensures good { (m : Fleet) (r : ℕ) → IsGoodPlan m → IsGoodPlan (withdrawn m (removable_tail m r)) }
    ensures ends { (m : Fleet) (r q : ℕ) → IsGoodPlan m → r ≢ q → end_of (withdrawn m (removable_tail m r)) q ≡ end_of m q }
{}

/// No claim of the footprint at one robot's end conflicts with one at another's.
pub fn ends_do_not_conflict()
    ensures apart { (m : Fleet) (r q : ℕ) (a b : CellNo) (c d : ClaimNo) → IsSite m.site → IsGoodPlan m → r ≢ q → slice_get m.starts r ≡ Some a → slice_get m.starts q ≡ Some b → in_conflict m.site.groups c d ≡ true → has_claim (footprint_of m.site (end_of m r)) c ≡ true → has_claim (footprint_of m.site (end_of m q)) d ≡ true → ⊥ }
{}
