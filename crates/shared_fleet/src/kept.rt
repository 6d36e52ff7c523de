//! The value of the lock.

ghost use Rattle.shared_fleet.specs.Tokens.{without_entries};

use coordinator::coordinator::Coordinator;
use fleet_base::entries::Entry;
use turn_lock::Counted;

// The coordinator alone. Its history is the journal, whose entries name their robots.
#[derive(Drop)]
pub(crate) struct Kept {
    pub(crate) fleet: Coordinator,
}

impl Counted for Kept {
    type Entry = Entry;

    type Fixed = Coordinator;

    ghost history = { λ kept. kept.fleet.journal };

    ghost maker = { λ entry. entry.robot.0 };

    ghost fixed = { λ kept. without_entries kept.fleet };

    fn count(&self) -> u64 {
        self.fleet.journal().len() as u64
    }
}
