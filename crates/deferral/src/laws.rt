//! What a backlog says of the fleet and the site that it shows.

ghost use Rattle.std.specs.Prelude.{◌≡◌, ℕ, List, Option, length, Some};
ghost use Rattle.std.specs.FinSet.{FinSet};
ghost use Rattle.std.specs.Option.{option_map};
ghost use Rattle.std.specs.Ordering.{nat_cmp};
ghost use Rattle.fleet_base.specs.Blockers.{pair_of};
ghost use Rattle.fleet_base.specs.ClaimSets.{IsSetOf};
ghost use Rattle.fleet_base.specs.declared.answers.Blocker.{Blocker};
ghost use Rattle.fleet_base.specs.declared.numbers.CellNo.{CellNo};
ghost use Rattle.fleet_base.specs.declared.numbers.ClaimNo.{ClaimNo};
ghost use Rattle.fleet_model.specs.Deferral.{least_blocker};
ghost use Rattle.fleet_model.specs.Sites.{Site};
ghost use Rattle.fleet_model.specs.States as model;
ghost use Rattle.deferral.specs.Backlogs.{Backlog, is_deferred_on, blocker_count, IsLeastBlocker};
ghost use Rattle.deferral.specs.Laws.{Shows, ShowsEnds, AreBlockers};

/// Of a backlog that shows a state, the relation is the state's deferral relation, and a count is
/// the number of the claims by which the one robot blocks the other's pending route.
pub fn deferrals_are_those_of_states()
    ensures deferred { (b : Backlog) (s : model.State) → Shows b s → (r q : ℕ) → is_deferred_on b r q ≡ model.is_deferred_on s r q }
    ensures counted { (b : Backlog) (s : model.State) → Shows b s → (r q : ℕ) (route : List CellNo) → model.pending_of s r ≡ Some route
        → (claims : List ℕ) × AreBlockers s r q route claims × (length claims ≡ blocker_count b r q) }
{}

/// Of a backlog whose groups are a site's and whose ends have the footprints of these cells, the
/// least blocker of a route that needs the claims of a list is that of the rules.
pub fn blockers_are_those_of_sites()
    ensures { (b : Backlog) (site : Site) (cells : List CellNo) (r : ℕ) (needs : FinSet nat_cmp) (claims : List ClaimNo) (blocker : Option Blocker)
        → ShowsEnds b site cells → IsSetOf needs claims → IsLeastBlocker b r needs blocker
        → option_map pair_of blocker ≡ least_blocker site cells r claims }
{}
