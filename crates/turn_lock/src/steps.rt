//! The words and the slot of a lock, and the single steps on them.

ghost use Rattle.std.specs.Prelude.{◌≡◌, ◌≢◌, ℕ, ◌%◌, ◌^◌, [], ◌∷◌, length, Some, None};
ghost use Rattle.atomic_table.specs.Table.{rest};
ghost use Rattle.turn_lock.specs.declared.view.Stage.TheVariants.{Free, Waits, Has};
ghost use Rattle.turn_lock.specs.Turns.{Fits, waiting, having, caught_up, raising, free};
ghost use Rattle.turn_lock.specs.Places.{Raises, Passes};

use crate::counted::Counted;
use crate::rule::{Count, Draw, InTurn, Look, Pass, Raise};
use crate::view::View;
use atomic_table::{Seat, Table};
use std::alloc::Global;
use std::hint::spin_loop;
use std::snapshot::Snapshot;
use std::sync::Wait;

// The number of tickets drawn.
const TICKET: usize = 0;

// The number of turns that have ended.
const SERVING: usize = 1;

// The length of the history.
const HISTORY: usize = 2;

// So often a seat looks again before it sleeps.
const SPINS: u32 = 64;

/// The words and the slot.
#[derive(Drop)]
pub(crate) struct Words<T: Counted> {
    pub(crate) table: Table<Option<T>, View<T, T::Entry>, Snapshot<T>, InTurn, Global>,
    ghost sized: { (table.shared.table_id.words ≡ 3) × (table.shared.table_id.slots ≡ 1) },
}

impl<T: Counted> Words<T> {
    /// Draws a ticket.
    pub(crate) fn draw(&self, seat: &mut Seat<Option<T>, View<T, T::Entry>>) -> u64
        requires lock { seat.old.table_id ≡ self.now.table.shared.table_id }
        requires free { (seat.old.me.0.stage ≡ Free) × (seat.old.me.1 ≡ []) }
        ensures lock { seat.new.table_id ≡ seat.old.table_id }
        ensures drew { (t : ℕ) × (t % 2 ^ 64 ≡ result) × (seat.new.me ≡ (waiting seat.old.me.0 t, [])) }
    {
        self.table.shared.fetch_add::<Draw>(seat, TICKET, 1)
    }

    // The number of the turn. Where it is the seat's, the slot is out with it.
    fn look(&self, seat: &mut Seat<Option<T>, View<T, T::Entry>>) -> u64
        requires lock { seat.old.table_id ≡ self.now.table.shared.table_id }
        requires waits { (seat.old.me.0.stage ≡ Waits) × (seat.old.me.1 ≡ []) }
        ensures lock { seat.new.table_id ≡ seat.old.table_id }
        ensures turn { result ≡ seat.old.me.0.ticket % 2 ^ 64 → (x : T) × (seat.new.me ≡ (having seat.old.me.0 x, (0, Some x) ∷ [])) × Fits T.history T.maker T.fixed seat.old.me.0 x }
        ensures wait { result ≢ seat.old.me.0.ticket % 2 ^ 64 → seat.new.me ≡ seat.old.me }
    {
        self.table.shared.load::<Look>(seat, SERVING)
    }

    /// Waits until the slot is out with the seat.
    pub(crate) fn wait<R: Wait>(
        &self,
        rt: &R,
        seat: &mut Seat<Option<T>, View<T, T::Entry>>,
        ticket: u64,
    )
        requires lock { seat.old.table_id ≡ self.now.table.shared.table_id }
        requires waits { (seat.old.me.0.stage ≡ Waits) × (seat.old.me.1 ≡ []) }
        requires ticket { seat.old.me.0.ticket % 2 ^ 64 ≡ ticket }
        ensures lock { seat.new.table_id ≡ seat.old.table_id }
        ensures turn { (x : T) × (seat.new.me ≡ (having seat.old.me.0 x, (0, Some x) ∷ [])) × Fits T.history T.maker T.fixed seat.old.me.0 x }
    {
        let mut spins = 0;
        for _ in rt.forever() {
            let serving = self.look(seat);
            if serving == ticket {
                return;
            }
            if spins < SPINS {
                spins += 1;
                spin_loop();
            } else {
                self.table
                    .shared
                    .park(rt, SERVING, (serving & 0xffff_ffff) as u32);
            }
        }
        unreachable!()
    }

    /// Takes the value out of the slot that the seat has.
    pub(crate) fn pull(&self, seat: &mut Seat<Option<T>, View<T, T::Entry>>) -> T
        requires lock { seat.old.table_id ≡ self.now.table.shared.table_id }
        requires slot { (x : T) × (seat.old.me.1 ≡ (0, Some x) ∷ []) }
        ensures lock { seat.new.table_id ≡ seat.old.table_id }
        ensures me { seat.new.me ≡ (seat.old.me.0, (0, None) ∷ []) }
        ensures value { seat.old.me.1 ≡ (0, Some result) ∷ [] }
    {
        self.table.shared.exchange(seat, 0, None).unwrap()
    }

    /// Puts the value into the slot that the seat has.
    pub(crate) fn put(&self, seat: &mut Seat<Option<T>, View<T, T::Entry>>, value: T)
        requires lock { seat.old.table_id ≡ self.now.table.shared.table_id }
        requires slot { seat.old.me.1 ≡ (0, None) ∷ [] }
        ensures lock { seat.new.table_id ≡ seat.old.table_id }
        ensures me { seat.new.me ≡ (seat.old.me.0, (0, Some value) ∷ []) }
    {
        match self.table.shared.exchange(seat, 0, Some(value)) {
            None => {}
            Some(_) => unreachable!(),
        }
    }

    /// The length of the history of what the seat took, which it has then seen.
    pub(crate) fn note(&self, seat: &mut Seat<Option<T>, View<T, T::Entry>>) -> u64
        requires lock { seat.old.table_id ≡ self.now.table.shared.table_id }
        requires turn { (x : T) × (seat.old.me.0.stage ≡ Has x) }
        ensures lock { seat.new.table_id ≡ seat.old.table_id }
        ensures seen { (x : T) × (seat.old.me.0.stage ≡ Has x) × (result ≡ length (T.history x)) × (seat.new.me ≡ (caught_up seat.old.me.0 (T.history x), seat.old.me.1)) }
    {
        self.table.shared.load::<Count>(seat, HISTORY)
    }

    /// Raises the length of the history by the entry that the value in the slot has more.
    pub(crate) fn raise(&self, seat: &mut Seat<Option<T>, View<T, T::Entry>>)
        requires lock { seat.old.table_id ≡ self.now.table.shared.table_id }
        requires more { Raises T.history T.maker T.fixed seat.old.me }
        ensures lock { seat.new.table_id ≡ seat.old.table_id }
        ensures raised { (y : T) × (seat.old.me.1 ≡ (0, Some y) ∷ []) × (seat.new.me ≡ (raising seat.old.me.0 y (T.history y), seat.old.me.1)) }
    {
        self.table.shared.fetch_add::<Raise>(seat, HISTORY, 1);
    }

    /// Gives the slot back and the turn to the next, and wakes those that wait. Whoever draws a
    /// ticket after the look at that word finds the turn passed on, and needs no waking.
    pub(crate) fn pass(&self, seat: &mut Seat<Option<T>, View<T, T::Entry>>)
        requires lock { seat.old.table_id ≡ self.now.table.shared.table_id }
        requires known { Passes T.history T.fixed seat.old.me }
        ensures lock { seat.new.table_id ≡ seat.old.table_id }
        ensures passed { seat.new.me ≡ (free seat.old.me.0, rest seat.old.me.1) }
    {
        let served = self.table.shared.fetch_add::<Pass>(seat, SERVING, 1);
        if self.table.shared.peek(TICKET) != served.wrapping_add(1) {
            self.table.shared.wake_all(SERVING);
        }
    }
}
