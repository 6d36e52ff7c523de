//! The lock and its seats.

ghost use Rattle.std.specs.Prelude.{◌≡◌, ℕ, ◌+◌, ◌<◌, ◌^◌, All, IfOk, IfErr, IsSome, None, [], ◌∷◌, length};
ghost use Rattle.std.specs.Option.{ForSome};
ghost use mathlib.Core.List.{IsPrefix};
ghost use Rattle.turn_lock.specs.Locks.{Agrees, IsGrown, IsOf, behind, entries_of, first_seat, known, next_seat, with_history, with_turn};

use crate::counted::Counted;
use crate::rule::{Make, TakeIn};
use crate::steps::Words;
use crate::view::View;
use atomic_table::{Refused, Seat, Table};
use std::alloc::{AllocFailed, Global};
use std::marker::Model;
use std::snapshot::Snapshot;
use std::sync::Wait;

/// A value that one seat at a time takes out. Contracts see which lock it is, and the value that it
/// was set up with.
#[derive(Drop)]
pub struct TurnLock<T: Counted> {
    words: Words<T>,
}

impl<T: Counted> Model for TurnLock<T> {
    ghost use Rattle.turn_lock.specs.Locks.{Lock, lock_code};

    ghost Value = { Lock T };

    ghost coded = { lock_code T.code };

    ghost view = { λ l. record { id = l.words.table.shared.table_id; opening = l.words.table.shared.key.value } };
}

/// One thread's token. It has no bytes but its numbers. Contracts see what it knows.
#[derive(Drop)]
pub struct TurnSeat<T: Counted> {
    seat: Seat<Option<T>, View<T, T::Entry>>,
    number: u32,
    made: u32,
}

impl<T: Counted> Model for TurnSeat<T> {
    ghost use Rattle.std.specs.Prelude.{◌≡◌};
    ghost use Rattle.turn_lock.specs.Locks as seen;

    ghost Value = { seen.Seat T T.Entry };

    ghost coded = { seen.seat_code T.code T.Entry.code };

    ghost use Rattle.turn_lock.specs.Places.{Rests, seat_of};

    ghost view = { λ s. seat_of s.seat.table_id s.seat.me };

    ghost invariant = { λ s. (s.seat.me.0.number ≡ s.number) × (s.seat.me.0.made ≡ s.made) × Rests s.seat.me.0.stage s.seat.me.1 };
}

impl<T: Counted> TurnSeat<T> {
    /// The seat's number: 0 of the first one, and k of the k-th that this one makes.
    pub fn number(&self) -> u32
        ensures { result ≡ self.now.number }
    {
        self.number
    }
}

impl<T: Counted> TurnLock<T> {
    /// A lock round the value, and its first seat. The error is want of memory alone, and hands the
    /// value back.
    pub fn set_up(alloc: Global, value: T) -> Result<(TurnLock<T>, TurnSeat<T>), T>
    where
        T: Drop,
        ensures lock { IfOk result (λ r. r.0.opening ≡ value) }
        ensures seat { IfOk result (λ r. r.1 ≡ first_seat r.0 (T.history value)) }
        ensures err { IfErr result (λ v. v ≡ value) }
    {
        let count = value.count();
        let key = Snapshot::of(&value);
        let mut slots = Vec::new(alloc);
        if let Err(AllocFailed { value }) = slots.push(Some(value)) {
            return Err(value.unwrap());
        }
        match Table::new(alloc, &[0, 0, count], slots, &key) {
            Ok((table, seat)) => Ok((
                TurnLock {
                    words: Words { table },
                },
                TurnSeat {
                    seat,
                    number: 0,
                    made: 0,
                },
            )),
            Err(Refused { mut slots }) => Err(slots.pop().unwrap().unwrap()),
        }
    }

    /// Makes a seat, which has seen what the first one has.
    pub fn split(&self, seat: &mut TurnSeat<T>) -> TurnSeat<T>
        requires own { IsOf self.now seat.old }
        requires first { seat.old.number ≡ 0 }
        requires room { seat.old.made + 1 < 2 ^ 32 }
        ensures counted { seat.new ≡ record seat.old { made = seat.old.made + 1 } }
        ensures made { result ≡ next_seat seat.old }
    {
        let child = self.words.table.shared.split_seat::<Make>(&mut seat.seat);
        seat.made += 1;
        TurnSeat {
            seat: child,
            number: seat.made,
            made: 0,
        }
    }

    /// Takes in a seat that the first one made, and keeps what it knew.
    pub fn join(&self, seat: &mut TurnSeat<T>, gone: TurnSeat<T>)
        requires own { IsOf self.now seat.old }
        requires gone { IsOf self.now gone }
        requires first { seat.old.number ≡ 0 }
        requires idle { seat.old.taken ≡ None }
        requires gone_idle { gone.taken ≡ None }
        ensures { seat.new ≡ record seat.old { joined = known gone ∷ seat.old.joined } }
    {
        let TurnSeat {
            seat: other,
            number: _,
            made: _,
        } = gone;
        self.words
            .table
            .shared
            .join_seat::<TakeIn>(&mut seat.seat, other);
    }

    /// Draws a ticket, waits for the seat's turn and takes the value out.
    pub fn take<R: Wait>(&self, rt: &R, seat: &mut TurnSeat<T>) -> T
        requires own { IsOf self.now seat.old }
        requires idle { seat.old.taken ≡ None }
        ensures turn { seat.new ≡ with_turn seat.old result }
        ensures fixed { T.fixed result ≡ T.fixed self.now.opening }
        ensures begins { IsPrefix (T.history self.now.opening) (T.history result) }
        ensures known { Agrees T.maker (T.history self.now.opening) (T.history result) (known seat.old) }
    {
        let ticket = self.words.draw(&mut seat.seat);
        self.words.wait(rt, &mut seat.seat, ticket);
        self.words.pull(&mut seat.seat)
    }

    /// Puts the value back and passes the turn on. The value's history is that of the one that was
    /// taken, or has one entry of the seat's number more.
    pub fn give(&self, seat: &mut TurnSeat<T>, value: T)
        requires own { IsOf self.now seat.old }
        requires turn { IsSome seat.old.taken }
        requires fixed { ForSome seat.old.taken (λ x. T.fixed value ≡ T.fixed x) }
        requires history { ForSome seat.old.taken (λ x. IsGrown T.maker seat.old.number (T.history x) (T.history value)) }
        ensures { ForSome seat.old.taken (λ x. seat.new ≡ with_history seat.old (T.history x) (T.history value)) }
    {
        let count = value.count();
        self.words.put(&mut seat.seat, value);
        if self.words.note(&mut seat.seat) != count {
            self.words.raise(&mut seat.seat);
        }
        self.words.pass(&mut seat.seat);
    }

    /// The value, once every seat was joined.
    pub fn close(self, seat: TurnSeat<T>) -> T
        requires own { IsOf self seat }
        requires first { seat.number ≡ 0 }
        requires idle { seat.taken ≡ None }
        requires all { length seat.joined ≡ seat.made }
        ensures fixed { T.fixed result ≡ T.fixed self.opening }
        ensures begins { IsPrefix (T.history self.opening) (T.history result) }
        ensures known { Agrees T.maker (T.history self.opening) (T.history result) (known seat) }
        ensures joined { All (λ gone. Agrees T.maker (T.history self.opening) (T.history result) gone) seat.joined }
        ensures others { (n : ℕ) → seat.made < n → entries_of T.maker n (behind (T.history self.opening) (T.history result)) ≡ [] }
    {
        let TurnLock { words } = self;
        let Words { table } = words;
        let TurnSeat {
            seat: last,
            number: _,
            made: _,
        } = seat;
        let mut closed = table.close_with(last);
        let value = closed.take(0);
        closed.free();
        value.unwrap()
    }
}
