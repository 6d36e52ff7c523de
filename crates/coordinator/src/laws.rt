//! Laws of calls.

ghost use Rattle.std.specs.Prelude.{◌≡◌, ℕ, Bool, List, Some};
ghost use Rattle.fleet_model.specs.Lists.{has_cell};
ghost use Rattle.fleet_base.specs.declared.entries.Act.TheVariants.{Replanned};
ghost use Rattle.fleet_base.specs.declared.numbers.CellNo.{CellNo};
ghost use Rattle.fleet_base.specs.declared.numbers.ClaimNo.{ClaimNo};
ghost use Rattle.fleet_base.specs.declared.numbers.EventNo.{EventNo};
ghost use Rattle.fleet_base.specs.declared.numbers.RobotNo.{RobotNo};
ghost use Rattle.fleet_model.specs.Calls.{cancel, propose, replan, report, retry, withdraw};
ghost use Rattle.fleet_model.specs.Journals.{last_of};
ghost use Rattle.fleet_model.specs.Plans.{IsBlocker};
ghost use Rattle.fleet_model.specs.Sites.{IsSite};
ghost use Rattle.fleet_model.specs.States.{State};
ghost use Rattle.coordinator.specs.Books.{Book, IsLegalBook, Reaches, state_of};

/// The route that a replan's entry names has no blocker, and a replan to its last cell alone gives
/// the same entry.
pub fn replans_are_free()
    ensures free { (s : State) (r : ℕ) (goal : CellNo → Bool) (robot : RobotNo) (route : List CellNo) (first : EventNo) → IsSite s.fleet.site →
        (replan s r goal).entry ≡ Some (record { robot = robot; act = Replanned route first }) →
        (claim : ClaimNo) (q : ℕ) → IsBlocker s.fleet r route claim q → ⊥ }
    ensures last { (s : State) (r : ℕ) (goal : CellNo → Bool) (robot : RobotNo) (route : List CellNo) (first : EventNo) → IsSite s.fleet.site →
        (replan s r goal).entry ≡ Some (record { robot = robot; act = Replanned route first }) →
        (replan s r (has_cell (last_of route))).entry ≡ Some (record { robot = robot; act = Replanned route first }) }
{}

/// With the entry of a call, where it has one, the journal of any coordinator reaches the state that
/// the call leaves. The goal of a replan may be any.
pub fn journals_reach_what_calls_leave()
    ensures propose { (book : Book) (r : ℕ) (cells : List CellNo) → IsLegalBook book → Reaches book (propose (state_of book) r cells) }
    ensures retry { (book : Book) (r : ℕ) → IsLegalBook book → Reaches book (retry (state_of book) r) }
    ensures cancel { (book : Book) (r : ℕ) → IsLegalBook book → Reaches book (cancel (state_of book) r) }
    ensures withdraw { (book : Book) (r : ℕ) → IsLegalBook book → Reaches book (withdraw (state_of book) r) }
    ensures replan { (book : Book) (r : ℕ) (goal : CellNo → Bool) → IsLegalBook book → Reaches book (replan (state_of book) r goal) }
    ensures report { (book : Book) (r : ℕ) (event : EventNo) → IsLegalBook book → Reaches book (report (state_of book) r event) }
{}
