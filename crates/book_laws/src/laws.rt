//! The hard properties of a coordinator.
//!
//! Each law takes any coordinator. What a call answers and leaves is named by `AnswersPropose` and
//! the like, which are what the call's own clauses tell.

ghost use Rattle.std.specs.Prelude.{◌≡◌, ◌≢◌, ◌↔◌, ◌⊎◌, ℕ, Bool, List, [], ◌∷◌, None, Some, Result, Ok, Err};
ghost use Rattle.fleet_base.specs.Lists.{numbers_of, robots_of};
ghost use Rattle.fleet_base.specs.declared.answers.Block.{Block};
ghost use Rattle.fleet_base.specs.declared.answers.Look.{Look};
ghost use Rattle.fleet_base.specs.declared.answers.PendingLook.TheVariants.{Blocked};
ghost use Rattle.fleet_base.specs.declared.answers.ProposeRefused.{ProposeRefused};
ghost use Rattle.fleet_base.specs.declared.answers.ProposeRefused.TheVariants.{Full, NoMemory};
ghost use Rattle.fleet_base.specs.declared.answers.Proposed.{Proposed};
ghost use Rattle.fleet_base.specs.declared.answers.Proposed.TheVariants.{Merged, Deferred};
ghost use Rattle.fleet_base.specs.declared.answers.ReportRefused.{ReportRefused};
ghost use Rattle.fleet_base.specs.declared.answers.RetryRefused.TheVariants.{StillDeferred};
ghost use Rattle.fleet_base.specs.declared.entries.Entry.{Entry};
ghost use Rattle.fleet_base.specs.declared.numbers.CellNo.{CellNo};
ghost use Rattle.fleet_base.specs.declared.numbers.Event.{Event};
ghost use Rattle.fleet_base.specs.declared.numbers.RobotNo.{RobotNo};
ghost use Rattle.fleet_base.specs.declared.numbers.Span.{Span};
ghost use Rattle.fleet_model.specs.Calls.{answers, detour_of, look, propose};
ghost use Rattle.fleet_model.specs.Lists.{In};
ghost use Rattle.fleet_model.specs.Plans.{IsAllowed};
ghost use Rattle.fleet_model.specs.Sound.{CanInsert, IsCycle, IsReported, IsTrueTo};
ghost use Rattle.fleet_model.specs.States.{cycle_of, pending_of, pending_route};
ghost use Rattle.call_laws.specs.Bindings.{AreDeferred, Binds, OnlyReport};
ghost use Rattle.call_laws.specs.Least.{AllowedSafely};
ghost use Rattle.call_laws.specs.Orders.{all_accepted, report_calls};
ghost use Rattle.call_laws.specs.Proposals.{IsDeferred, IsMerged, MayPropose};
ghost use Rattle.call_laws.specs.Reports.{CameWith};
ghost use Rattle.coordinator.specs.Books.{Book, opening_of, state_of, with_entries};
ghost use Rattle.book_laws.specs.Calls.{AnswersPropose, AnswersReplan, AnswersReport, AnswersRetry};

use coordinator::coordinator::Coordinator;

/// Deferral is exact. Of a robot that has no route pending, a legal route is merged exactly where
/// some insertion of it is safe, and deferred exactly where none is, if there is room; want of room
/// is the one refusal. So it is of the machine's proposal, and of the coordinator's (`call_`), which
/// alone may also want memory.
pub fn deferral_is_exact(fleet: &Coordinator)
    ensures merged { (robot : ℕ) (cells : List CellNo) → MayPropose (state_of fleet.now) robot cells →
        (propose (state_of fleet.now) robot cells).answer ≢ Err Full →
        IsMerged (propose (state_of fleet.now) robot cells).answer ↔ CanInsert (state_of fleet.now) robot cells }
    ensures deferred { (robot : ℕ) (cells : List CellNo) → MayPropose (state_of fleet.now) robot cells →
        (propose (state_of fleet.now) robot cells).answer ≢ Err Full →
        IsDeferred (propose (state_of fleet.now) robot cells).answer ↔ (CanInsert (state_of fleet.now) robot cells → ⊥) }
    ensures refused { (robot : ℕ) (cells : List CellNo) (refused : ProposeRefused) → MayPropose (state_of fleet.now) robot cells →
        (propose (state_of fleet.now) robot cells).answer ≡ Err refused → refused ≡ Full }
    ensures call_merged { (robot : ℕ) (cells : List CellNo) (told : Result Proposed ProposeRefused) (after : Book) → MayPropose (state_of fleet.now) robot cells →
        AnswersPropose fleet.now robot cells told after → told ≢ Err Full → told ≢ Err NoMemory →
        IsMerged told ↔ CanInsert (state_of fleet.now) robot cells }
    ensures call_deferred { (robot : ℕ) (cells : List CellNo) (told : Result Proposed ProposeRefused) (after : Book) → MayPropose (state_of fleet.now) robot cells →
        AnswersPropose fleet.now robot cells told after → told ≢ Err Full → told ≢ Err NoMemory →
        IsDeferred told ↔ (CanInsert (state_of fleet.now) robot cells → ⊥) }
    ensures call_refused { (robot : ℕ) (cells : List CellNo) (refused : ProposeRefused) (after : Book) → MayPropose (state_of fleet.now) robot cells →
        AnswersPropose fleet.now robot cells (Err refused) after → (refused ≡ Full) ⊎ (refused ≡ NoMemory) }
{
    let _journal = fleet.journal(); // with its clauses, as in each law here
}

/// A merge forbids as little as is safe: behind a proposal that is merged, an accepted retry and an
/// accepted replan, each order is allowed that some safe insertion of the route allows.
pub fn merges_are_least(fleet: &Coordinator)
    ensures proposed { (robot : ℕ) (cells : List CellNo) (span : Span) (after : Book) (order : List Event) →
        AnswersPropose fleet.now robot cells (Ok (Merged span)) after →
        AllowedSafely (state_of fleet.now) robot cells order → IsAllowed (state_of after).fleet order }
    ensures retried { (robot : ℕ) (span : Span) (after : Book) (order : List Event) →
        AnswersRetry fleet.now robot (Ok span) after →
        AllowedSafely (state_of fleet.now) robot (pending_route (state_of fleet.now) robot) order → IsAllowed (state_of after).fleet order }
    ensures replanned { (robot : ℕ) (goal : CellNo → Bool) (route : List CellNo) (span : Span) (after : Book) (order : List Event) →
        AnswersReplan fleet.now robot goal (Ok span) after → detour_of (state_of fleet.now).fleet robot goal ≡ Some route →
        AllowedSafely (state_of fleet.now) robot route order → IsAllowed (state_of after).fleet order }
{
    let _journal = fleet.journal();
}

/// Cycles of deferrals bind. A cycle that isn't empty in the answer of `propose`, `retry`, `look` or
/// `cycle_of` stands at the state that the call leaves; and after any calls of any robots from there,
/// accepted or refused, in which no member cancels, withdraws or replans, it still stands, each
/// proposal of a member is refused, each retry of one is still deferred, and what the members have
/// done is to report.
pub fn cycles_bind(fleet: &Coordinator)
    ensures proposed { (robot : ℕ) (cells : List CellNo) (block : Block) (after : Book) →
        AnswersPropose fleet.now robot cells (Ok (Deferred block)) after → block.cycle ≢ [] →
        Binds (state_of after) (numbers_of block.cycle) }
    ensures retried { (robot : ℕ) (block : Block) (after : Book) →
        AnswersRetry fleet.now robot (Err (StillDeferred block)) after → block.cycle ≢ [] →
        Binds (state_of after) (numbers_of block.cycle) }
    ensures seen { (robot : ℕ) (view : Look) (block : Block) →
        (look (state_of fleet.now) robot).answer ≡ Ok view → view.pending ≡ Blocked block → block.cycle ≢ [] →
        Binds (state_of fleet.now) (numbers_of block.cycle) }
    ensures told { (robot : ℕ) (cycle : List RobotNo) → cycle ≡ robots_of (cycle_of (state_of fleet.now) robot) → cycle ≢ [] →
        Binds (state_of fleet.now) (numbers_of cycle) }
{
    let _journal = fleet.journal();
}

/// The same over journals: where a cycle of deferrals stood when the journal was shorter, and in the
/// entries since then no member canceled, withdrew or replanned, it stands now, and what the members
/// have done is to report.
pub fn members_stay_deferred(fleet: &Coordinator)
    ensures { (members : List ℕ) (earlier : Book) (entries : List Entry) → fleet.now ≡ with_entries earlier entries →
        IsCycle (state_of earlier) members → IsTrueTo members entries →
        AreDeferred (state_of fleet.now) members × OnlyReport members entries }
{
    let _journal = fleet.journal();
}

/// Cycles of deferrals are reported: where a cycle stands, the last deferral by a member names a
/// cycle that isn't empty, if some member's pending route came with the journal (`came`). It did
/// where the member had none pending at the opening (`free`).
pub fn cycles_are_reported(fleet: &Coordinator)
    ensures came { (members : List ℕ) (robot : ℕ) → IsCycle (state_of fleet.now) members → In robot members →
        CameWith fleet.now.journal robot → IsReported members fleet.now.journal }
    ensures free { (members : List ℕ) (robot : ℕ) → IsCycle (state_of fleet.now) members → In robot members →
        pending_of (opening_of fleet.now) robot ≡ None → IsReported members fleet.now.journal }
{
    let _journal = fleet.journal();
}

/// Execution needs nothing: reporting an allowed order of the state, event by event, is answered Ok
/// at each event. `whole` says so of the machine's answers to the whole order; `first` of the
/// coordinator's `report` of its first event, behind which the rest is allowed.
pub fn allowed_orders_are_accepted(fleet: &Coordinator)
    ensures whole { (order : List Event) → IsAllowed (state_of fleet.now).fleet order →
        answers (state_of fleet.now) (report_calls order) ≡ all_accepted order }
    ensures first { (e : Event) (rest : List Event) (told : Result (Unit {0}) ReportRefused) (after : Book) →
        IsAllowed (state_of fleet.now).fleet (e ∷ rest) → AnswersReport fleet.now e.robot.0 e.no told after →
        (told ≡ Ok tt) × IsAllowed (state_of after).fleet rest }
{
    let _journal = fleet.journal();
}
