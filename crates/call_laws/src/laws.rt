//! What calls that are accepted allow, when a proposal is deferred, and what calls on a cycle of
//! deferrals answer.

ghost use Rattle.std.specs.Prelude.{◌≡◌, ◌≢◌, ◌↔◌, ℕ, Bool, List, [], ◌∷◌, None, Some, Ok, Err};
ghost use Rattle.fleet_base.specs.Lists.{numbers_of};
ghost use Rattle.fleet_base.specs.declared.answers.Block.{Block};
ghost use Rattle.fleet_base.specs.declared.answers.Look.{Look};
ghost use Rattle.fleet_base.specs.declared.answers.PendingLook.TheVariants.{Blocked};
ghost use Rattle.fleet_base.specs.declared.answers.ProposeRefused.{ProposeRefused};
ghost use Rattle.fleet_base.specs.declared.answers.ProposeRefused.TheVariants.{Full};
ghost use Rattle.fleet_base.specs.declared.answers.Proposed.TheVariants.{Merged, Deferred};
ghost use Rattle.fleet_base.specs.declared.answers.RetryRefused.TheVariants.{StillDeferred};
ghost use Rattle.fleet_base.specs.declared.entries.Entry.{Entry};
ghost use Rattle.fleet_base.specs.declared.numbers.CellNo.{CellNo};
ghost use Rattle.fleet_base.specs.declared.numbers.Event.{Event};
ghost use Rattle.fleet_base.specs.declared.numbers.Span.{Span};
ghost use Rattle.fleet_model.specs.Calls.{answers, detour_of, look, propose, replan, report, retry};
ghost use Rattle.fleet_model.specs.Good.{IsGood};
ghost use Rattle.fleet_model.specs.Journals.{IsJournal, state_after};
ghost use Rattle.fleet_model.specs.Lists.{In};
ghost use Rattle.fleet_model.specs.Plans.{IsAllowed};
ghost use Rattle.fleet_model.specs.Sites.{IsSite};
ghost use Rattle.fleet_model.specs.Sound.{AreCyclesSound, CanInsert, IsCycle, IsReported, IsTrueTo};
ghost use Rattle.fleet_model.specs.States.{State, cycle_of, pending_of, pending_route};
ghost use Rattle.call_laws.specs.Bindings.{AreDeferred, Binds, OnlyReport};
ghost use Rattle.call_laws.specs.Least.{AllowedSafely};
ghost use Rattle.call_laws.specs.Orders.{all_accepted, report_calls};
ghost use Rattle.call_laws.specs.Proposals.{IsDeferred, IsMerged, MayPropose};
ghost use Rattle.call_laws.specs.Reports.{CameWith};

/// A legal route of a robot that has none pending is merged exactly where some insertion of it is
/// safe, and deferred exactly where none is, if there is room; want of room is the one refusal.
pub fn legal_proposals_are_exact()
    ensures merged { (s : State) (r : ℕ) (cells : List CellNo) → IsSite s.fleet.site → IsGood s → MayPropose s r cells →
        (propose s r cells).answer ≢ Err Full → IsMerged (propose s r cells).answer ↔ CanInsert s r cells }
    ensures deferred { (s : State) (r : ℕ) (cells : List CellNo) → IsSite s.fleet.site → IsGood s → MayPropose s r cells →
        (propose s r cells).answer ≢ Err Full → IsDeferred (propose s r cells).answer ↔ (CanInsert s r cells → ⊥) }
    ensures refused { (s : State) (r : ℕ) (cells : List CellNo) (refused : ProposeRefused) → IsSite s.fleet.site → MayPropose s r cells →
        (propose s r cells).answer ≡ Err refused → refused ≡ Full }
{}

/// After an accepted proposal that is merged, an accepted retry and an accepted replan each order
/// is allowed that some safe insertion of the route allows.
pub fn merges_are_least()
    ensures proposed { (s : State) (r : ℕ) (cells : List CellNo) (span : Span) (order : List Event) → IsSite s.fleet.site → IsGood s →
        (propose s r cells).answer ≡ Ok (Merged span) → AllowedSafely s r cells order → IsAllowed (propose s r cells).after.fleet order }
    ensures retried { (s : State) (r : ℕ) (span : Span) (order : List Event) → IsSite s.fleet.site → IsGood s →
        (retry s r).answer ≡ Ok span → AllowedSafely s r (pending_route s r) order → IsAllowed (retry s r).after.fleet order }
    ensures replanned { (s : State) (r : ℕ) (goal : CellNo → Bool) (route : List CellNo) (span : Span) (order : List Event) → IsSite s.fleet.site → IsGood s →
        detour_of s.fleet r goal ≡ Some route → (replan s r goal).answer ≡ Ok span → AllowedSafely s r route order → IsAllowed (replan s r goal).after.fleet order }
{}

/// After any accepted calls in which no member of a cycle of deferrals cancels, withdraws or
/// replans, a retry by a member is still deferred.
pub fn members_stay_deferred()
    ensures { (s : State) (members : List ℕ) (journal : List Entry) (r : ℕ) → IsSite s.fleet.site → IsGood s → IsCycle s members →
        IsJournal s journal → IsTrueTo members journal → In r members →
        (block : Block) × ((retry (state_after s journal) r).answer ≡ Err (StillDeferred block)) }
{}

/// Each cycle of deferrals binds its members until one of them cancels, withdraws or replans. It
/// does so after any accepted calls (`journals`) and after any calls (`calls`).
pub fn cycles_bind_members()
    ensures journals { (s : State) (members : List ℕ) (journal : List Entry) → IsSite s.fleet.site → IsGood s → IsCycle s members →
        IsJournal s journal → IsTrueTo members journal → AreDeferred (state_after s journal) members × OnlyReport members journal }
    ensures calls { (s : State) (members : List ℕ) → IsSite s.fleet.site → IsGood s → IsCycle s members → Binds s members }
{}

/// A cycle that isn't empty in the answer of a proposal, a retry or a look, and in `cycle_of`, is a
/// cycle of the state that the call leaves, and binds its members.
pub fn answered_cycles_bind()
    ensures proposed { (s : State) (r : ℕ) (cells : List CellNo) (block : Block) → IsSite s.fleet.site → IsGood s →
        (propose s r cells).answer ≡ Ok (Deferred block) → block.cycle ≢ [] → Binds (propose s r cells).after (numbers_of block.cycle) }
    ensures retried { (s : State) (r : ℕ) (block : Block) → IsSite s.fleet.site → IsGood s →
        (retry s r).answer ≡ Err (StillDeferred block) → block.cycle ≢ [] → Binds (retry s r).after (numbers_of block.cycle) }
    ensures seen { (s : State) (r : ℕ) (view : Look) (block : Block) → IsSite s.fleet.site → IsGood s →
        (look s r).answer ≡ Ok view → view.pending ≡ Blocked block → block.cycle ≢ [] → Binds (look s r).after (numbers_of block.cycle) }
    ensures told { (s : State) (r : ℕ) → IsSite s.fleet.site → IsGood s → cycle_of s r ≢ [] → Binds s (cycle_of s r) }
{}

/// Reporting an allowed order, event by event, is accepted at each event: of the whole order
/// (`whole`), and at its first event, behind which the rest is allowed (`first`).
pub fn allowed_orders_are_accepted()
    ensures whole { (s : State) (order : List Event) → IsGood s → IsAllowed s.fleet order → answers s (report_calls order) ≡ all_accepted order }
    ensures first { (s : State) (e : Event) (rest : List Event) → IsGood s → IsAllowed s.fleet (e ∷ rest) →
        ((report s e.robot.0 e.no).answer ≡ Ok tt) × IsAllowed (report s e.robot.0 e.no).after.fleet rest }
{}

/// Where the cycles of a journal are sound, the last deferral by a member of a cycle names a cycle
/// that isn't empty, if some member's pending route came with the journal (`came`). It did where
/// the member had none at the opening (`free`), and so did every one where nobody had.
pub fn cycles_are_reported()
    ensures came { (opening : State) (journal : List Entry) (members : List ℕ) (r : ℕ) → AreCyclesSound opening journal →
        IsCycle (state_after opening journal) members → In r members → CameWith journal r → IsReported members journal }
    ensures free { (opening : State) (journal : List Entry) (members : List ℕ) (r : ℕ) → AreCyclesSound opening journal →
        IsCycle (state_after opening journal) members → In r members → pending_of opening r ≡ None → IsReported members journal }
{}
