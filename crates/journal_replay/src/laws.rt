//! Laws of the first entry that differs.
//!
//! A law is the contract of a function with an empty body.

ghost use Rattle.std.specs.Prelude.{◌≡◌, ℕ, List, None, Some};
ghost use Rattle.fleet_base.specs.declared.entries.Entry.{Entry};
ghost use Rattle.fleet_model.specs.Journals.{IsJournal};
ghost use Rattle.fleet_model.specs.States.{State};
ghost use Rattle.journal_replay.specs.Differing.{DiffersAt, first_differing};

/// Where no entry differs, the journal is legal.
pub fn none_differs()
    ensures { (s : State) (entries : List Entry) → first_differing s entries ≡ None → IsJournal s entries }
{}

/// In a legal journal none differs.
pub fn legal_differs_nowhere()
    ensures { (s : State) (entries : List Entry) → IsJournal s entries → first_differing s entries ≡ None }
{}

/// Where one differs first, those before it are a legal journal, and with it they aren't.
pub fn first_differs()
    ensures { (s : State) (entries : List Entry) (n : ℕ) → first_differing s entries ≡ Some n → DiffersAt s entries n }
{}

/// No other entry is the first.
pub fn one_differs()
    ensures { (s : State) (entries : List Entry) (n : ℕ) → DiffersAt s entries n → first_differing s entries ≡ Some n }
{}
