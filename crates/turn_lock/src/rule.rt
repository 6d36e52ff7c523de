//! The rule of a lock, and what each kind of step tells.

use crate::counted::Counted;
use crate::view::View;
use atomic_table::{Join, Play, Split, TableRule};
use std::snapshot::Snapshot;

/// The rule. The key remembers the value that was set up.
pub struct InTurn;

impl<T: Counted> TableRule<Option<T>, View<T, T::Entry>, Snapshot<T>> for InTurn {
    ghost use Rattle.turn_lock.specs.Turns.{Turns, opened};

    ghost holds = { λ key. Turns T.history T.maker T.fixed key.value };

    ghost first = { λ key. opened key.value (T.history key.value) };
}

/// Draws a ticket.
pub struct Draw;

impl<T: Counted> Play<Option<T>, View<T, T::Entry>> for Draw {
    ghost use Rattle.turn_lock.specs.Turns.{drew};

    ghost then = { drew };
}

/// Looks whose turn it is, and takes the slot where it is the seat's.
pub struct Look;

impl<T: Counted> Play<Option<T>, View<T, T::Entry>> for Look {
    ghost use Rattle.turn_lock.specs.Turns.{looked};

    ghost then = { looked T.history T.maker T.fixed };
}

/// Reads the length of the history, and has seen it.
pub struct Count;

impl<T: Counted> Play<Option<T>, View<T, T::Entry>> for Count {
    ghost use Rattle.turn_lock.specs.Turns.{counted};

    ghost then = { counted T.history };
}

/// Raises the length of the history by the entry that the seat's value has more.
pub struct Raise;

impl<T: Counted> Play<Option<T>, View<T, T::Entry>> for Raise {
    ghost use Rattle.turn_lock.specs.Turns.{raised};

    ghost then = { raised T.history };
}

/// Gives the slot back and passes the turn on.
pub struct Pass;

impl<T: Counted> Play<Option<T>, View<T, T::Entry>> for Pass {
    ghost use Rattle.turn_lock.specs.Turns.{passed};

    ghost then = { passed };
}

/// Makes a seat.
pub struct Make;

impl<T: Counted> Split<View<T, T::Entry>> for Make {
    ghost use Rattle.turn_lock.specs.Turns.{parent, child};

    ghost left = { parent };

    ghost right = { child };
}

/// Takes a seat in.
pub struct TakeIn;

impl<T: Counted> Join<View<T, T::Entry>> for TakeIn {
    ghost use Rattle.turn_lock.specs.Turns.{both, spent};

    ghost both = { both };

    ghost spent = { spent };
}
