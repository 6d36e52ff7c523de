//! A coordinator that is to be shared, or was.

ghost use Rattle.std.specs.Prelude.{◌≡◌, length};

use coordinator::coordinator::Coordinator;
use std::marker::Model;

/// A coordinator, and how many entries its journal had when the book was opened. Whatever entries
/// stand behind these were made by calls through passes.
#[derive(Drop)]
pub struct Book {
    pub(crate) fleet: Coordinator,
    pub(crate) opened: u64,
}

impl Model for Book {
    ghost use Rattle.shared_fleet.specs.Tokens.{Opened};

    ghost Value = { Opened };

    ghost view = { λ b. record { fleet = b.fleet; opened = b.opened } };
}

impl Book {
    /// The book of this coordinator, opened now.
    pub fn open(fleet: Coordinator) -> Book
        ensures fleet { result.fleet ≡ fleet }
        ensures opened { result.opened ≡ length fleet.journal }
    {
        let opened = fleet.journal().len() as u64;
        Book { fleet, opened }
    }

    /// The coordinator.
    pub fn fleet(&self) -> &Coordinator
        ensures { result.now ≡ self.now.fleet }
    {
        &self.fleet
    }

    /// How many entries the journal had when the book was opened.
    pub fn opened(&self) -> u64
        ensures { result ≡ self.now.opened }
    {
        self.opened
    }

    /// The coordinator itself.
    pub fn into_fleet(self) -> Coordinator
        ensures { result ≡ self.fleet }
    {
        self.fleet
    }
}
