//! The tables follow the plan: what each change of a fleet does to what is known of its robots.

ghost use Rattle.std.specs.Prelude.{◌≡◌, ℕ, ◌<◌, ◌≤◌, List, ◌∷◌, length, Option, Some};
ghost use Rattle.fleet_base.specs.declared.numbers.CellNo.{CellNo};
ghost use Rattle.fleet_base.specs.declared.numbers.Event.{Event};
ghost use Rattle.fleet_model.specs.Sites.{Site, IsSite, last_cell};
ghost use Rattle.fleet_model.specs.Plans.{Fleet, end_of, IsBehind, IsReady, merged, removable_tail, withdrawn};
ghost use Rattle.fleet_model.specs.States.{opening_state};
ghost use Rattle.fleet_model.specs.Calls.{reported};
ghost use Rattle.fleet_model.specs.Good.{IsGoodPlan};
ghost use Rattle.fleet_model.specs.Tables.{IsCounted};
ghost use Rattle.robot_tables.specs.Robots.{after_report, at_starts, holding_at, robots_of, with_end, HasPlaceFor};

/// At an opening each robot ends and is where it starts, and holds the footprint there.
pub fn openings_are_at_starts()
    ensures { (site : Site) (starts : List CellNo) (pending : List (Option (List CellNo)))
        (next cap : ℕ) → IsSite site → IsCounted site →
        robots_of (opening_state site starts pending next cap).fleet ≡ at_starts site starts }
{}

/// A merge and a withdrawal change the end of their robot and nothing else.
pub fn plans_change_ends()
    ensures merge { (m : Fleet) (r : ℕ) (a : CellNo) (bs : List CellNo) →
        2 ≤ length (a ∷ bs) →
        robots_of (merged m r (a ∷ bs)) ≡ with_end (robots_of m) r (last_cell a bs) }
    ensures withdrawal { (m : Fleet) (r : ℕ) → IsGoodPlan m →
        robots_of (withdrawn m (removable_tail m r))
        ≡ with_end (robots_of m) r (end_of (withdrawn m (removable_tail m r)) r) }
{}

/// A ready event may be reported, and its report changes what is known of its robot.
pub fn reports_are_known()
    ensures known { (m : Fleet) (e : Event) → IsGoodPlan m →
        IsReady (IsBehind m.site.groups) m.plan m.finished e →
        e.robot.0 < length (robots_of m).ends }
    ensures place { (m : Fleet) (e : Event) → IsSite m.site → IsCounted m.site → IsGoodPlan m →
        IsReady (IsBehind m.site.groups) m.plan m.finished e →
        HasPlaceFor (holding_at (robots_of m) e.robot.0) e.kind }
    ensures report { (m : Fleet) (e : Event) → IsSite m.site → IsCounted m.site → IsGoodPlan m →
        IsReady (IsBehind m.site.groups) m.plan m.finished e →
        robots_of (reported m (Some e)) ≡ after_report (robots_of m) e.robot.0 e.kind }
{}
