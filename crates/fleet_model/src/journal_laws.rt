//! Laws of calls and journals.

ghost use Rattle.std.specs.Prelude.{◌≡◌, ◌≢◌, ℕ, List, Option, Some, Ok};
ghost use Rattle.fleet_base.specs.declared.answers.Block.{Block};
ghost use Rattle.fleet_base.specs.declared.answers.Proposed.TheVariants as proposed;
ghost use Rattle.fleet_base.specs.declared.entries.Act.TheVariants.{Reported};
ghost use Rattle.fleet_base.specs.declared.entries.Entry.{Entry};
ghost use Rattle.fleet_base.specs.declared.numbers.CellNo.{CellNo};
ghost use Rattle.fleet_base.specs.declared.numbers.Event.{Event};
ghost use Rattle.fleet_base.specs.declared.numbers.EventNo.{EventNo};
ghost use Rattle.fleet_base.specs.declared.numbers.Span.{Span};
ghost use Rattle.fleet_model.specs.Calls.{after_calls, Call, entries_of, propose, turn};
ghost use Rattle.fleet_model.specs.Good.{IsGood, IsOpening};
ghost use Rattle.fleet_model.specs.Journals.{IsJournal, report_entries, state_after, turn_at};
ghost use Rattle.fleet_model.specs.Lists.{In};
ghost use Rattle.fleet_model.specs.Plans.{IsAllowed, IsBehind, IsReady};
ghost use Rattle.fleet_model.specs.Sites.{IsSite, Site};
ghost use Rattle.fleet_model.specs.Sound.{CanInsert, IsCycle, IsSoundJournal, IsTrueTo, IsWithdrawal, NoneDefers};
ghost use Rattle.fleet_model.specs.States.{opening_state, State};

/// An opening state is good, every call keeps a state good and its site, and so does a journal.
pub fn states_stay_good()
    ensures opens { (site : Site) (starts : List CellNo) (pending : List (Option (List CellNo))) (next cap : ℕ) → IsOpening site starts pending next cap → IsGood (opening_state site starts pending next cap) }
    ensures calls { (s : State) (r : ℕ) (call : Call) → IsSite s.fleet.site → IsGood s → IsGood (turn s r call).after }
    ensures site { (s : State) (r : ℕ) (call : Call) → IsSite s.fleet.site → IsGood s → IsSite (turn s r call).after.fleet.site }
    ensures journals { (s : State) (journal : List Entry) → IsSite s.fleet.site → IsGood s → IsJournal s journal → IsGood (state_after s journal) }
{}

/// The entries that a list of calls adds are a legal journal, and its state is the one that the
/// calls leave.
pub fn calls_make_journals()
    ensures legal { (s : State) (calls : List (ℕ × Call)) → IsSite s.fleet.site → IsGood s → IsJournal s (entries_of s calls) }
    ensures reaches { (s : State) (calls : List (ℕ × Call)) → IsSite s.fleet.site → IsGood s → state_after s (entries_of s calls) ≡ after_calls s calls }
{}

/// Every legal journal is sound: at each of its places every allowed order is safe, an unfinished
/// plan has a ready event, a merge removes no allowed order, a proposal is deferred exactly where
/// no insertion of it is safe, and cycles of deferrals are reported and bind.
pub fn journals_are_sound()
    ensures sound { (opening : State) (journal : List Entry) → IsSite opening.fleet.site → IsGood opening → IsJournal opening journal → IsSoundJournal opening journal }
{}

/// A proposal that is merged has a safe insertion, and one that is deferred has none.
pub fn proposals_are_exact()
    ensures merged { (s : State) (r : ℕ) (cells : List CellNo) (span : Span) → IsSite s.fleet.site → IsGood s → (propose s r cells).answer ≡ Ok (proposed.Merged span) → CanInsert s r cells }
    ensures deferred { (s : State) (r : ℕ) (cells : List CellNo) (block : Block) → IsSite s.fleet.site → IsGood s → (propose s r cells).answer ≡ Ok (proposed.Deferred block) → CanInsert s r cells → ⊥ }
{}

/// A cycle of deferrals lasts until a member cancels, withdraws or replans, and until then its
/// members only report. It stood since the last deferral of a member.
pub fn cycles_bind()
    ensures lasts { (s : State) (members : List ℕ) (journal : List Entry) → IsSite s.fleet.site → IsGood s → IsCycle s members → IsJournal s journal → IsTrueTo members journal → IsCycle (state_after s journal) members }
    ensures reports { (s : State) (members : List ℕ) (journal : List Entry) → IsSite s.fleet.site → IsGood s → IsCycle s members → IsJournal s journal → IsTrueTo members journal → (entry : Entry) → In entry journal → In entry.robot.0 members → (n : EventNo) × (entry.act ≡ Reported n) }
    ensures stood { (s : State) (members : List ℕ) (journal : List Entry) → IsSite s.fleet.site → IsGood s → IsJournal s journal → IsCycle (state_after s journal) members → NoneDefers members journal → IsCycle s members }
{}

/// A ready event stays ready but for its own report and its own robot's withdrawal.
pub fn ready_lasts()
    ensures ready { (s : State) (entry : Entry) (e : Event) → IsSite s.fleet.site → IsGood s → (turn_at s entry).entry ≡ Some entry → entry.act ≢ Reported e.no → (IsWithdrawal entry.act → entry.robot.0 ≢ e.robot.0)
        → IsReady (IsBehind s.fleet.site.groups) s.fleet.plan s.fleet.finished e
        → IsReady (IsBehind (turn_at s entry).after.fleet.site.groups) (turn_at s entry).after.fleet.plan (turn_at s entry).after.fleet.finished e }
{}

/// Reporting any allowed order, event by event, is accepted at each event.
pub fn allowed_orders_report()
    ensures accepted { (s : State) (order : List Event) → IsGood s → IsAllowed s.fleet order → IsJournal s (report_entries order) }
{}
