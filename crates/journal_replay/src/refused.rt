//! Why a journal isn't replayed.

ghost use Rattle.std.specs.Prelude.{◌≡◌};
ghost use Rattle.journal_replay.specs.Refusals.{of_checkpoint, of_entries, of_resumed};
ghost use Rattle.journal_replay.specs.declared.refused.ReplayRefused.TheVariants.{New};

use coordinator::refused::{NewRefused, ResumeRefused as CheckpointRefused};
use fleet_base::numbers::RobotNo;

/// Why entries aren't replayed.
#[derive(Clone, Copy, Debug, PartialEq, Eq)]
pub enum EntriesRefused {
    /// This is the number, from 1, of the first entry that isn't one of an accepted call with just
    /// this answer, at the state that the entries before it leave.
    Differs { entry: u32 },
    /// No memory was left.
    NoMemory,
}

/// Why a journal isn't replayed; the first cause in this order.
#[derive(Clone, Copy, Debug, PartialEq, Eq)]
pub enum ReplayRefused {
    /// No coordinator has these starts.
    New(NewRefused),
    /// As for [`EntriesRefused`].
    Differs { entry: u32 },
    /// No memory was left.
    NoMemory,
}

/// Why a journal isn't resumed from a checkpoint; the first cause in this order.
#[derive(Clone, Copy, Debug, PartialEq, Eq)]
pub enum ResumeRefused {
    /// No coordinator has these starts.
    New(NewRefused),
    /// The number isn't from 1 to 100,000,000,000,000.
    BadNext,
    /// The least robot whose pending route isn't a legal route from its cell.
    BadPending { robot: RobotNo },
    /// More routes are pending than the cap has room for.
    Crowded,
    /// As for [`EntriesRefused`].
    Differs { entry: u32 },
    /// No memory was left.
    NoMemory,
}

impl From<NewRefused> for ReplayRefused {
    ghost from_gives = { λ cause refused. refused ≡ New cause };

    fn from(cause: NewRefused) -> Self {
        ReplayRefused::New(cause)
    }
}

impl From<EntriesRefused> for ReplayRefused {
    ghost from_gives = { λ cause refused. refused ≡ of_entries cause };

    fn from(cause: EntriesRefused) -> Self {
        match cause {
            EntriesRefused::Differs { entry } => ReplayRefused::Differs { entry },
            EntriesRefused::NoMemory => ReplayRefused::NoMemory,
        }
    }
}

impl From<CheckpointRefused> for ResumeRefused {
    ghost from_gives = { λ cause refused. refused ≡ of_checkpoint cause };

    fn from(cause: CheckpointRefused) -> Self {
        match cause {
            CheckpointRefused::New(cause) => ResumeRefused::New(cause),
            CheckpointRefused::BadNext => ResumeRefused::BadNext,
            CheckpointRefused::BadPending(robot) => ResumeRefused::BadPending { robot },
            CheckpointRefused::Crowded => ResumeRefused::Crowded,
            CheckpointRefused::NoMemory => ResumeRefused::NoMemory,
        }
    }
}

impl From<EntriesRefused> for ResumeRefused {
    ghost from_gives = { λ cause refused. refused ≡ of_resumed cause };

    fn from(cause: EntriesRefused) -> Self {
        match cause {
            EntriesRefused::Differs { entry } => ResumeRefused::Differs { entry },
            EntriesRefused::NoMemory => ResumeRefused::NoMemory,
        }
    }
}
