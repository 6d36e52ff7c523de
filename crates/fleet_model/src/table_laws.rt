//! The laws of the tables beside a plan: how merges, reports and withdrawals change the unfinished
//! events, the ends, the cells and the held claims, how much is owed, and which routes are pending.

ghost use Rattle.std.specs.Prelude.{◌≡◌, ◌≢◌, ◌↔◌, ℕ, ◌+◌, ◌<◌, ◌≤◌, ◌⊎◌, not, ◌&&◌, ◌==◌, nat_le, List, [], ◌∷◌, ◌++◌, length, map, Option, Some, None, slice_get, slice_set};
ghost use Rattle.std.specs.List.{filter, Contains};
ghost use Rattle.std.specs.Option.{is_some};
ghost use Rattle.fleet_base.specs.Lists.{placed, RiseFrom};
ghost use Rattle.fleet_base.specs.declared.numbers.CellNo.{CellNo};
ghost use Rattle.fleet_base.specs.declared.numbers.ClaimNo.{ClaimNo};
ghost use Rattle.fleet_base.specs.declared.numbers.Event.{Event};
ghost use Rattle.fleet_base.specs.declared.numbers.Kind.TheVariants.{Acquire, Move, Release};
ghost use Rattle.fleet_model.specs.Lists.{In};
ghost use Rattle.fleet_model.specs.Sites.{Site, IsSite, footprint_of, last_cell, steps};
ghost use Rattle.fleet_model.specs.Plans.{Fleet, cell_of, end_of, is_done, IsBehind, IsReady, merged, own, removable_tail, route_events, unfinished, withdrawn};
ghost use Rattle.fleet_model.specs.Deferral.{ends};
ghost use Rattle.fleet_model.specs.States.{State, opening_state, owed, pending_of};
ghost use Rattle.fleet_model.specs.Calls.{deferring, moved, reported, with_route};
ghost use Rattle.fleet_model.specs.Good.{IsGood, IsGoodPlan};
ghost use Rattle.fleet_model.specs.Tables.{held_by, holdings, IsCounted, places};

/// Each table has a place for each robot, and there what is the robot's own.
pub fn tables_are_by_robot()
    ensures ends { (m : Fleet) (r : ℕ) → r < length m.starts → slice_get (ends m) r ≡ Some (end_of m r) }
    ensures places { (m : Fleet) (r : ℕ) → r < length m.starts → slice_get (places m) r ≡ Some (cell_of m r) }
    ensures holdings { (m : Fleet) (r : ℕ) → r < length m.starts → slice_get (holdings m) r ≡ Some (held_by m r) }
    ensures end_count { (m : Fleet) → length (ends m) ≡ length m.starts }
    ensures place_count { (m : Fleet) → length (places m) ≡ length m.starts }
    ensures holding_count { (m : Fleet) → length (holdings m) ≡ length m.starts }
{}

/// At an opening nothing is unfinished, each robot ends and is where it starts and holds the
/// footprint there, and the pending routes are owed.
pub fn openings_fill_tables()
    ensures unfinished { (site : Site) (starts : List CellNo) (pending : List (Option (List CellNo))) (next cap : ℕ) → unfinished (opening_state site starts pending next cap).fleet ≡ [] }
    ensures ends { (site : Site) (starts : List CellNo) (pending : List (Option (List CellNo))) (next cap : ℕ) → ends (opening_state site starts pending next cap).fleet ≡ starts }
    ensures places { (site : Site) (starts : List CellNo) (pending : List (Option (List CellNo))) (next cap : ℕ) → places (opening_state site starts pending next cap).fleet ≡ starts }
    ensures holdings { (site : Site) (starts : List CellNo) (pending : List (Option (List CellNo))) (next cap : ℕ) → IsSite site → IsCounted site → holdings (opening_state site starts pending next cap).fleet ≡ map (footprint_of site) starts }
    ensures owed { (site : Site) (starts : List CellNo) (pending : List (Option (List CellNo))) (next cap : ℕ) → owed (opening_state site starts pending next cap) ≡ length (filter is_some pending) }
{}

/// A merge puts the route's events behind the unfinished ones and its robot's end into the last
/// cell, and leaves the cells and the held claims.
pub fn merges_change_tables()
    ensures unfinished { (m : Fleet) (r : ℕ) (route : List CellNo) → IsGoodPlan m → unfinished (merged m r route) ≡ unfinished m ++ route_events m r route }
    ensures ends { (m : Fleet) (r : ℕ) (a : CellNo) (bs : List CellNo) → 2 ≤ length (a ∷ bs) → ends (merged m r (a ∷ bs)) ≡ slice_set (ends m) r (last_cell a bs) }
    ensures places { (m : Fleet) (r : ℕ) (route : List CellNo) → places (merged m r route) ≡ places m }
    ensures holdings { (m : Fleet) (r : ℕ) (route : List CellNo) → holdings (merged m r route) ≡ holdings m }
    ensures starts { (m : Fleet) (r : ℕ) (route : List CellNo) → (merged m r route).starts ≡ m.starts }
    ensures site { (m : Fleet) (r : ℕ) (route : List CellNo) → (merged m r route).site ≡ m.site }
{}

/// A report takes its event out of the unfinished ones and leaves the ends. A move puts its robot
/// into the cell, an acquire its claim among the held ones, where it wasn't, and a release takes
/// its claim, which was there, away.
pub fn reports_change_tables()
    ensures unfinished { (m : Fleet) (e : Event) → unfinished (reported m (Some e)) ≡ filter (λ f. not (f.no.0 == e.no.0)) (unfinished m) }
    ensures ends { (m : Fleet) (e : Event) → ends (reported m (Some e)) ≡ ends m }
    ensures moved_place { (m : Fleet) (e : Event) (a b : CellNo) → e.kind ≡ Move a b → places (reported m (Some e)) ≡ slice_set (places m) e.robot.0 b }
    ensures moved_holding { (m : Fleet) (e : Event) (a b : CellNo) → e.kind ≡ Move a b → holdings (reported m (Some e)) ≡ holdings m }
    ensures other_place { (m : Fleet) (e : Event) (c : ClaimNo) → (e.kind ≡ Acquire c) ⊎ (e.kind ≡ Release c) → places (reported m (Some e)) ≡ places m }
    ensures acquired { (m : Fleet) (e : Event) (c : ClaimNo) → IsSite m.site → IsCounted m.site → IsGoodPlan m → IsReady (IsBehind m.site.groups) m.plan m.finished e → e.kind ≡ Acquire c
        → holdings (reported m (Some e)) ≡ slice_set (holdings m) e.robot.0 (placed (held_by m e.robot.0) c) }
    ensures missing { (m : Fleet) (e : Event) (c : ClaimNo) → IsSite m.site → IsGoodPlan m → IsReady (IsBehind m.site.groups) m.plan m.finished e → e.kind ≡ Acquire c → Contains (held_by m e.robot.0) c → ⊥ }
    ensures present { (m : Fleet) (e : Event) (c : ClaimNo) → IsSite m.site → IsCounted m.site → IsGoodPlan m → IsReady (IsBehind m.site.groups) m.plan m.finished e → e.kind ≡ Release c → Contains (held_by m e.robot.0) c }
    ensures released { (m : Fleet) (e : Event) (c : ClaimNo) → e.kind ≡ Release c → holdings (reported m (Some e)) ≡ slice_set (holdings m) e.robot.0 (filter (λ d. not (d.0 == c.0)) (held_by m e.robot.0)) }
{}

/// A withdrawal takes its robot's last unfinished events away, which are those from the tail's
/// first number on, changes that robot's end alone, and leaves the cells and the held claims.
pub fn withdrawals_change_tables()
    ensures unfinished { (m : Fleet) (r : ℕ) → unfinished (withdrawn m (removable_tail m r)) ≡ filter (λ e. not (is_done (removable_tail m r) e)) (unfinished m) }
    ensures own_events { (m : Fleet) (r : ℕ) → IsGoodPlan m → own r (unfinished m) ≡ own r (unfinished (withdrawn m (removable_tail m r))) ++ removable_tail m r }
    ensures other_events { (m : Fleet) (r q : ℕ) → IsGoodPlan m → r ≢ q → own q (unfinished (withdrawn m (removable_tail m r))) ≡ own q (unfinished m) }
    ensures tail { (m : Fleet) (r : ℕ) (t : Event) (ts : List Event) (e : Event) → IsGoodPlan m → removable_tail m r ≡ t ∷ ts → In e (unfinished m) → In e (removable_tail m r) ↔ ((e.robot.0 ≡ r) × (t.no.0 ≤ e.no.0)) }
    ensures left { (m : Fleet) (r : ℕ) (t : Event) (ts : List Event) → IsGoodPlan m → removable_tail m r ≡ t ∷ ts → unfinished (withdrawn m (removable_tail m r)) ≡ filter (λ e. not ((e.robot.0 == r) && nat_le t.no.0 e.no.0)) (unfinished m) }
    ensures ends { (m : Fleet) (r : ℕ) → IsGoodPlan m → ends (withdrawn m (removable_tail m r)) ≡ slice_set (ends m) r (end_of (withdrawn m (removable_tail m r)) r) }
    ensures places { (m : Fleet) (r : ℕ) → places (withdrawn m (removable_tail m r)) ≡ places m }
    ensures holdings { (m : Fleet) (r : ℕ) → holdings (withdrawn m (removable_tail m r)) ≡ holdings m }
{}

/// What is owed grows by the events of a merged route and by a deferred route, and shrinks by a
/// route that is pending no more, by withdrawn events and by a reported one.
pub fn room_changes()
    ensures merge { (s : State) (r : ℕ) (route : List CellNo) → IsGood s → pending_of s r ≡ None → owed (with_route s r route) ≡ owed s + length (steps s.fleet.site route) }
    ensures pending_merge { (s : State) (r : ℕ) (route old : List CellNo) → IsGood s → pending_of s r ≡ Some old → owed (with_route s r route) + 1 ≡ owed s + length (steps s.fleet.site route) }
    ensures deferral { (s : State) (r : ℕ) (route : List CellNo) → IsGood s → r < length s.fleet.starts → pending_of s r ≡ None → owed (deferring s r route) ≡ owed s + 1 }
    ensures drop { (s : State) (r : ℕ) (old : List CellNo) → pending_of s r ≡ Some old → owed (moved s s.fleet r None) + 1 ≡ owed s }
    ensures cut { (s : State) (r : ℕ) → IsGood s → pending_of s r ≡ None → owed (moved s (withdrawn s.fleet (removable_tail s.fleet r)) r None) + length (removable_tail s.fleet r) ≡ owed s }
    ensures pending_cut { (s : State) (r : ℕ) (old : List CellNo) → IsGood s → pending_of s r ≡ Some old → owed (moved s (withdrawn s.fleet (removable_tail s.fleet r)) r None) + (length (removable_tail s.fleet r) + 1) ≡ owed s }
    ensures report { (s : State) (e : Event) → IsGood s → IsReady (IsBehind s.fleet.site.groups) s.fleet.plan s.fleet.finished e → owed (record s { fleet = reported s.fleet (Some e); count = s.count + 1 }) + 1 ≡ owed s }
{}

/// A change of a robot's pending route puts it into the robot's place, and leaves the others.
pub fn pending_routes_change()
    ensures own_route { (s : State) (fleet : Fleet) (r : ℕ) (route : Option (List CellNo)) → IsGood s → r < length s.fleet.starts → pending_of (moved s fleet r route) r ≡ route }
    ensures none { (s : State) (fleet : Fleet) (r : ℕ) → pending_of (moved s fleet r None) r ≡ None }
    ensures other_route { (s : State) (fleet : Fleet) (r q : ℕ) (route : Option (List CellNo)) → r ≢ q → pending_of (moved s fleet r route) q ≡ pending_of s q }
    ensures report { (s : State) (e : Event) (q : ℕ) → pending_of (record s { fleet = reported s.fleet (Some e); count = s.count + 1 }) q ≡ pending_of s q }
{}

/// A robot's held claims ascend, and are at most six, so that there is a place for one that it is
/// to acquire.
pub fn holdings_are_small()
    ensures ascending { (m : Fleet) (r : ℕ) → RiseFrom 0 (held_by m r) }
    ensures small { (m : Fleet) (r : ℕ) → IsSite m.site → IsGoodPlan m → length (held_by m r) ≤ 6 }
    ensures room { (m : Fleet) (e : Event) (c : ClaimNo) → IsSite m.site → IsCounted m.site → IsGoodPlan m → IsReady (IsBehind m.site.groups) m.plan m.finished e → e.kind ≡ Acquire c → length (held_by m e.robot.0) < 6 }
{}
