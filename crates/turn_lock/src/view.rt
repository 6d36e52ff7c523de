//! What the lock's table knows of each seat. No value of these types is made.

ghost use Rattle.std.specs.Prelude.{List};
ghost use base.Fml.{ftrue};
ghost use base.Stored.{coded_list};
ghost use Rattle.turn_lock.specs.Locks.{Known, known_code};

use std::marker::{Model, PhantomData};

/// Where a seat stands.
pub enum Stage<T> {
    /// It has no ticket.
    Free,
    /// It has a ticket, and waits for its turn.
    Waits,
    /// It has the turn, and the history of this value is the one history.
    Has(T),
    /// It was joined.
    Spent,
}

/// The lists of a seat, in a type of their own, which has no bytes.
pub struct Notes<E> {
    marker: PhantomData<E>,
    pub ghost seen: { List E } by { coded_list E.code },
    pub ghost own: { List E } by { coded_list E.code },
    pub ghost joined: { List (Known E) } by { coded_list (known_code E.code) },
}

impl<E> Model for Notes<E> {
    ghost also_owns = { λ _. ftrue };
}

impl<E> Drop for Notes<E> {
    fn drop(self) {
        let Self { marker: _ } = self;
    }
}

/// What a seat knows.
pub struct View<T, E> {
    pub opening: Option<T>,
    pub number: u64,
    pub made: u64,
    pub turns: u64,
    pub ticket: u64,
    pub stage: Stage<T>,
    pub notes: Notes<E>,
}
