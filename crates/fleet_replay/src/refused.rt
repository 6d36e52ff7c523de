//! Why a text isn't replayed.

ghost use Rattle.std.specs.Prelude.{◌≡◌};
ghost use Rattle.fleet_replay.specs.Stops.{of_entries, of_journal, of_scenario};
ghost use Rattle.fleet_replay.specs.declared.refused.ReplayFault.TheVariants.{Line};
ghost use Rattle.fleet_replay.specs.declared.refused.TextRefused.TheVariants.{Fault, NoMemory as OutOfMemory};

use fleet_base::path::NoMemory;
use journal_replay::refused::EntriesRefused;
use plan_journal::reading::ReadJournalRefused;
use scenario_reader::stop::ReadRefused;
use site_lines::fault::At;

/// What is wrong with a text that isn't replayed.
#[derive(Clone, Copy, Debug, PartialEq, Eq)]
pub enum ReplayFault {
    /// This is its first bad line, with the line's least code: of the scenario or of the journal; or
    /// with `T2` the first line of a journal that is more than one segment; or with `T1` the first
    /// line in which what stands behind them differs from the state's text.
    Line(At),
    /// This is the number, from 1, of the first entry that isn't one of an accepted call with just
    /// this answer.
    Entry(u32),
}

/// Why a text isn't replayed.
#[derive(Clone, Copy, Debug, PartialEq, Eq)]
pub enum TextRefused {
    /// The text has this fault.
    Fault(ReplayFault),
    /// No memory was left.
    NoMemory,
}

impl From<ReadRefused> for TextRefused {
    ghost from_gives = { λ cause refused. refused ≡ of_scenario cause };

    fn from(cause: ReadRefused) -> Self {
        match cause {
            ReadRefused::Bad(at) => TextRefused::Fault(ReplayFault::Line(at)),
            ReadRefused::NoMemory => TextRefused::NoMemory,
        }
    }
}

impl From<ReadJournalRefused> for TextRefused {
    ghost from_gives = { λ cause refused. refused ≡ of_journal cause };

    fn from(cause: ReadJournalRefused) -> Self {
        match cause {
            ReadJournalRefused::Bad(at) => TextRefused::from(at),
            ReadJournalRefused::NoMemory => TextRefused::NoMemory,
        }
    }
}

impl From<EntriesRefused> for TextRefused {
    ghost from_gives = { λ cause refused. refused ≡ of_entries cause };

    fn from(cause: EntriesRefused) -> Self {
        match cause {
            EntriesRefused::Differs { entry } => TextRefused::Fault(ReplayFault::Entry(entry)),
            EntriesRefused::NoMemory => TextRefused::NoMemory,
        }
    }
}

impl From<At> for TextRefused {
    ghost from_gives = { λ at refused. refused ≡ Fault (Line at) };

    fn from(at: At) -> Self {
        TextRefused::Fault(ReplayFault::Line(at))
    }
}

impl From<NoMemory> for TextRefused {
    ghost from_gives = { λ _ refused. refused ≡ OutOfMemory };

    fn from(_error: NoMemory) -> Self {
        TextRefused::NoMemory
    }
}
