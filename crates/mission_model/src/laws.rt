//! Laws of missions: what quiet states, serial journals and acts of the policy are.

ghost use Rattle.std.specs.Prelude.{◌≡◌, ◌≢◌, ◌<◌, ℕ, ◌++◌, List, [], ◌∷◌, length, false, None, Some};
ghost use Rattle.fleet_base.specs.declared.entries.Act.TheVariants.{Reported};
ghost use Rattle.fleet_base.specs.declared.entries.Entry.{Entry};
ghost use Rattle.fleet_base.specs.declared.numbers.CellNo.{CellNo};
ghost use Rattle.fleet_base.specs.declared.numbers.EventNo.{EventNo};
ghost use Rattle.fleet_model.specs.Calls.{next_event};
ghost use Rattle.fleet_model.specs.Good.{IsGood};
ghost use Rattle.fleet_model.specs.Journals.{IsJournal, state_after};
ghost use Rattle.fleet_model.specs.Plans.{end_of, unfinished};
ghost use Rattle.fleet_model.specs.Sites.{IsSite};
ghost use Rattle.fleet_model.specs.States.{State};
ghost use Rattle.mission_model.specs.Outcomes.{behind_of, IsBehindList};
ghost use Rattle.mission_model.specs.Stops.{Leg, Missions, serve_on, served, stops_of};
ghost use Rattle.mission_model.specs.Policies.{can_go_on, goes_on, IsQuiet};
ghost use Rattle.mission_model.specs.Runs.{AreSerial, AreTrue, IsMissionTrue, IsSerialJournal, IsSerialRun, IsTrueEntry, serial_entries};
ghost use Rattle.mission_model.specs.Waiting.{WaitsFor};
ghost use Rattle.mission_model.specs.Serving.{AreOthers, KeepsEvents};

/// In a quiet state no event is unfinished.
pub fn quiet_leaves_nothing()
    ensures { (missions : Missions) (opening : State) (journal : List Entry) → IsSite opening.fleet.site → IsGood opening → IsJournal opening journal → IsQuiet missions opening journal → unfinished (state_after opening journal).fleet ≡ [] }
{}

/// The entry by which a robot goes on is its own, is that of an accepted call, and is true to its
/// mission. So it keeps a journal legal and mission-true.
pub fn acts_keep_journals()
    ensures robot { (missions : Missions) (opening : State) (journal : List Entry) (r : ℕ) (entry : Entry) → IsSite opening.fleet.site → IsGood opening → IsJournal opening journal → goes_on missions opening journal r ≡ Some entry → entry.robot.0 ≡ r }
    ensures legal { (missions : Missions) (opening : State) (journal : List Entry) (r : ℕ) (entry : Entry) → IsSite opening.fleet.site → IsGood opening → IsJournal opening journal → goes_on missions opening journal r ≡ Some entry → IsJournal opening (journal ++ entry ∷ []) }
    ensures mission { (missions : Missions) (opening : State) (journal : List Entry) (r : ℕ) (entry : Entry) → IsSite opening.fleet.site → IsGood opening → IsJournal opening journal → goes_on missions opening journal r ≡ Some entry → IsTrueEntry missions opening journal entry }
    ensures keeps { (missions : Missions) (opening : State) (journal : List Entry) (r : ℕ) (entry : Entry) → IsSite opening.fleet.site → IsGood opening → IsJournal opening journal → IsMissionTrue missions opening journal → goes_on missions opening journal r ≡ Some entry → IsMissionTrue missions opening (journal ++ entry ∷ []) }
{}

/// From each legal journal there is exactly one serial run. Its entries keep the journal legal, and
/// are true to the missions.
pub fn serial_run_is_one()
    ensures found { (missions : Missions) (opening : State) (journal : List Entry) → IsSite opening.fleet.site → IsGood opening → IsJournal opening journal → IsSerialRun missions opening journal (serial_entries missions opening journal) }
    ensures one { (missions : Missions) (opening : State) (journal xs ys : List Entry) → IsSerialRun missions opening journal xs → IsSerialRun missions opening journal ys → xs ≡ ys }
    ensures legal { (missions : Missions) (opening : State) (journal entries : List Entry) → IsSite opening.fleet.site → IsGood opening → IsJournal opening journal → AreSerial missions opening journal entries → IsJournal opening (journal ++ entries) }
    ensures mission { (missions : Missions) (opening : State) (journal entries : List Entry) → IsSite opening.fleet.site → IsGood opening → IsJournal opening journal → AreSerial missions opening journal entries → AreTrue missions opening journal entries }
{}

/// The robots that a robot is behind are one list, in every state.
pub fn behind_is_one()
    ensures found { (s : State) (r : ℕ) → IsBehindList s r (behind_of s r) }
    ensures one { (s : State) (r : ℕ) (xs ys : List ℕ) → IsBehindList s r xs → IsBehindList s r ys → xs ≡ ys }
{}

/// At a robot's end nothing is left to be served. Entries of other robots leave a robot its stops,
/// its end and its count; an own entry that takes no event back serves on at the end that it leaves.
pub fn serving_on_keeps_count()
    ensures twice { (legs : List Leg) (a : CellNo) (count : ℕ) → serve_on legs a (serve_on legs a count) ≡ serve_on legs a count }
    ensures at_end { (legs : List Leg) (opening : State) (journal : List Entry) (r : ℕ) → IsSite opening.fleet.site → IsGood opening → IsJournal opening journal → serve_on legs (end_of (state_after opening journal).fleet r) (served legs opening journal r) ≡ served legs opening journal r }
    ensures stops { (opening : State) (journal entries : List Entry) (r : ℕ) → AreOthers r entries → stops_of opening (journal ++ entries) r ≡ stops_of opening journal r }
    ensures others { (legs : List Leg) (opening : State) (journal entries : List Entry) (r : ℕ) → IsSite opening.fleet.site → IsGood opening → IsJournal opening (journal ++ entries) → AreOthers r entries → served legs opening (journal ++ entries) r ≡ served legs opening journal r }
    ensures end { (opening : State) (journal entries : List Entry) (r : ℕ) → IsSite opening.fleet.site → IsGood opening → IsJournal opening (journal ++ entries) → AreOthers r entries → end_of (state_after opening (journal ++ entries)).fleet r ≡ end_of (state_after opening journal).fleet r }
    ensures own { (legs : List Leg) (opening : State) (journal : List Entry) (entry : Entry) → IsSite opening.fleet.site → IsGood opening → IsJournal opening (journal ++ entry ∷ []) → KeepsEvents entry.act
        → served legs opening (journal ++ entry ∷ []) entry.robot.0 ≡ serve_on legs (end_of (state_after opening (journal ++ entry ∷ [])).fleet entry.robot.0) (served legs opening journal entry.robot.0) }
{}

/// A report by another robot leaves a robot that can't go on as it is, where an event is still
/// unfinished, and the robot has none itself or waits for one that wasn't reported.
pub fn reports_leave_others()
    ensures resting { (missions : Missions) (opening : State) (journal : List Entry) (entry : Entry) (n : EventNo) (q : ℕ) → IsSite opening.fleet.site → IsGood opening → IsJournal opening (journal ++ entry ∷ [])
        → entry.act ≡ Reported n → entry.robot.0 ≢ q → unfinished (state_after opening (journal ++ entry ∷ [])).fleet ≢ [] → can_go_on missions opening journal q ≡ false
        → next_event (state_after opening journal).fleet q ≡ None
        → (can_go_on missions opening (journal ++ entry ∷ []) q ≡ false) × (next_event (state_after opening (journal ++ entry ∷ [])).fleet q ≡ None) }
    ensures waiting { (missions : Missions) (opening : State) (journal : List Entry) (entry : Entry) (n on : EventNo) (q : ℕ) → IsSite opening.fleet.site → IsGood opening → IsJournal opening (journal ++ entry ∷ [])
        → entry.act ≡ Reported n → entry.robot.0 ≢ q → unfinished (state_after opening (journal ++ entry ∷ [])).fleet ≢ [] → can_go_on missions opening journal q ≡ false
        → on ≢ n → WaitsFor (state_after opening journal).fleet q on
        → (can_go_on missions opening (journal ++ entry ∷ []) q ≡ false) × WaitsFor (state_after opening (journal ++ entry ∷ [])).fleet q on }
{}
