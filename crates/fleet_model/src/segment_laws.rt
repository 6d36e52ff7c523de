//! The laws of the segments of journals.

ghost use Rattle.std.specs.Prelude.{◌≡◌, ℕ, ◌+◌, ◌*◌, ◌<◌, ◌≤◌, false, not, ◌==◌, if◌then◌else◌, List, [], ◌∷◌, ◌++◌, length, take, Option, Some};
ghost use Rattle.fleet_base.specs.declared.entries.Entry.{Entry};
ghost use Rattle.fleet_base.specs.declared.limits.TheConstants.{MAX_FIRST};
ghost use Rattle.fleet_base.specs.declared.marks.Mark.{Mark};
ghost use Rattle.fleet_base.specs.declared.numbers.CellNo.{CellNo};
ghost use Rattle.fleet_model.specs.Deferral.{ends};
ghost use Rattle.fleet_model.specs.Good.{IsGood, IsOpening};
ghost use Rattle.fleet_model.specs.Journals.{IsJournal, state_after, turn_at};
ghost use Rattle.fleet_model.specs.Plans.{unfinished};
ghost use Rattle.fleet_model.specs.Segments.{StandAlone, entries_between, mark_at, marks, opens_segment, segment_end};
ghost use Rattle.fleet_model.specs.Sites.{IsSite, Site};
ghost use Rattle.fleet_model.specs.States.{State, base_behind, is_full, is_past, opening_state};

/// For each mark of a legal journal, the entries from it to the next mark, or to the end, stand alone:
/// from the checkpoint at the mark, with the same cap, they are legal, open no segment, and reach the
/// same next number and for each robot the same cell, end, held claims, unfinished events and pending
/// route.
pub fn segments_stand_alone()
    ensures { (site : Site) (starts : List CellNo) (pending : List (Option (List CellNo))) (next cap : ℕ) (journal : List Entry) (earlier : List Mark) (mark : Mark) (later : List Mark) → IsSite site → IsOpening site starts pending next cap
        → IsJournal (opening_state site starts pending next cap) journal → marks (opening_state site starts pending next cap) journal ≡ earlier ++ mark ∷ later
        → StandAlone (state_after (opening_state site starts pending next cap) (take mark.before journal)) (entries_between mark.before (segment_end later journal) journal) }
{}

/// At a mark stands as much as it says: so many accepted calls and this next number; no event is
/// unfinished. The checkpoint there may open a run, as long as its number is within the bound.
pub fn checkpoints_stand_at_marks()
    ensures at { (site : Site) (starts : List CellNo) (pending : List (Option (List CellNo))) (next cap : ℕ) (journal : List Entry) (earlier : List Mark) (mark : Mark) (later : List Mark) → IsSite site → IsOpening site starts pending next cap
        → IsJournal (opening_state site starts pending next cap) journal → marks (opening_state site starts pending next cap) journal ≡ earlier ++ mark ∷ later
        → mark ≡ mark_at (state_after (opening_state site starts pending next cap) (take mark.before journal)) }
    ensures settled { (site : Site) (starts : List CellNo) (pending : List (Option (List CellNo))) (next cap : ℕ) (journal : List Entry) (earlier : List Mark) (mark : Mark) (later : List Mark) → IsSite site → IsOpening site starts pending next cap
        → IsJournal (opening_state site starts pending next cap) journal → marks (opening_state site starts pending next cap) journal ≡ earlier ++ mark ∷ later
        → unfinished (state_after (opening_state site starts pending next cap) (take mark.before journal)).fleet ≡ [] }
    ensures opening { (s : State) → IsSite s.fleet.site → IsGood s → s.fleet.next ≤ MAX_FIRST → IsOpening s.fleet.site (ends s.fleet) s.pending s.fleet.next s.cap }
{}

/// The marks of a legal journal rise, all but the first stand before one of its entries, and the last
/// one is the base of the state that the journal reaches. Their numbers keep to their bounds.
pub fn marks_rise()
    ensures rise { (site : Site) (starts : List CellNo) (pending : List (Option (List CellNo))) (next cap : ℕ) (journal : List Entry) (earlier : List Mark) (mark other : Mark) (later : List Mark) → IsSite site → IsOpening site starts pending next cap
        → IsJournal (opening_state site starts pending next cap) journal → marks (opening_state site starts pending next cap) journal ≡ earlier ++ mark ∷ other ∷ later → mark.before < other.before }
    ensures inside { (site : Site) (starts : List CellNo) (pending : List (Option (List CellNo))) (next cap : ℕ) (journal : List Entry) (first : Mark) (earlier : List Mark) (mark : Mark) (later : List Mark) → IsSite site → IsOpening site starts pending next cap
        → IsJournal (opening_state site starts pending next cap) journal → marks (opening_state site starts pending next cap) journal ≡ (first ∷ earlier) ++ mark ∷ later → mark.before < length journal }
    ensures last { (site : Site) (starts : List CellNo) (pending : List (Option (List CellNo))) (next cap : ℕ) (journal : List Entry) (earlier : List Mark) (mark : Mark) → IsSite site → IsOpening site starts pending next cap
        → IsJournal (opening_state site starts pending next cap) journal → marks (opening_state site starts pending next cap) journal ≡ earlier ++ mark ∷ [] → (state_after (opening_state site starts pending next cap) journal).base ≡ mark.before }
    ensures numbers { (site : Site) (starts : List CellNo) (pending : List (Option (List CellNo))) (next cap : ℕ) (journal : List Entry) (earlier : List Mark) (mark : Mark) (later : List Mark) → IsSite site → IsOpening site starts pending next cap
        → IsJournal (opening_state site starts pending next cap) journal → marks (opening_state site starts pending next cap) journal ≡ earlier ++ mark ∷ later → (1 ≤ mark.next.0) × (mark.next.0 ≤ next + 7161 * mark.before) }
{}

/// An entry adds a mark to a journal where it opens a segment. An outcome that there is room for opens
/// one exactly where it would go above the cap of the current one.
pub fn marks_are_added()
    ensures more { (s : State) (journal : List Entry) (entry : Entry) → marks s (journal ++ entry ∷ []) ≡ marks s journal ++ (if opens_segment (state_after s journal) entry then mark_at (state_after s journal) ∷ [] else []) }
    ensures opens { (s : State) (growth : ℕ) → IsGood s → is_full s growth ≡ false → not (base_behind s growth == s.base) ≡ is_past s growth }
{}
