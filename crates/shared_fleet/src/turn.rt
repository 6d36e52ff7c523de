//! The two ends of a turn.

ghost use Rattle.std.specs.Prelude.{◌≡◌, List, ◌++◌, None, Some, length};
ghost use Rattle.fleet_base.specs.declared.entries.Entry.{Entry};
ghost use Rattle.coordinator.specs.Books.{Book, with_entries};
ghost use Rattle.turn_lock.specs.Locks.{IsOf as IsSeatOf, with_turn as seat_with_turn};
ghost use Rattle.shared_fleet.specs.Resting.{IsFound, IsOwn, Rests, holding};

use crate::kept::Kept;
use coordinator::coordinator::Coordinator;
use std::sync::Wait;
use turn_lock::{TurnLock, TurnSeat};

/// Waits for the seat's turn and takes the coordinator out.
pub(crate) fn begin<R: Wait>(
    lock: &TurnLock<Kept>,
    rt: &R,
    seat: &mut TurnSeat<Kept>,
) -> Coordinator
    requires own { IsSeatOf lock.now seat.old }
    requires rests { Rests seat.old }
    ensures turn { seat.new ≡ seat_with_turn seat.old (holding result) }
    ensures found { IsFound lock.now.opening.fleet seat.old result }
{
    let Kept { fleet } = lock.take(rt, seat);
    let _journal = fleet.journal(); // with its clauses
    fleet
}

/// Puts the coordinator back and ends the turn. The answer is the length of its journal.
pub(crate) fn finish(lock: &TurnLock<Kept>, seat: &mut TurnSeat<Kept>, fleet: Coordinator) -> u64
    requires own { IsSeatOf lock.now seat.old }
    requires grown { (book : Book) × (added : List Entry) × (seat.old.taken ≡ Some (holding book)) × (fleet ≡ with_entries book added) × IsOwn seat.old.number added }
    ensures seat { (book : Book) (added : List Entry) → seat.old.taken ≡ Some (holding book) → fleet ≡ with_entries book added →
        seat.new ≡ record seat.old { taken = None; seen = fleet.journal; own = seat.old.own ++ added } }
    ensures count { result ≡ length fleet.journal }
{
    let count = fleet.journal().len() as u64;
    lock.give(seat, Kept { fleet });
    count
}
