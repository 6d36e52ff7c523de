//! The shared fleet.

ghost use Rattle.std.specs.Prelude.{◌≡◌, ℕ, ◌<◌, ◌≤◌, All, IfOk, IfErr, [], length, map};
ghost use Rattle.std.specs.List.{range_with_len};
ghost use Rattle.std.specs.Vec.{vec_capacity};
ghost use mathlib.Core.List.{IsPrefix};
ghost use Rattle.turn_lock.specs.Locks.{Agrees, behind, first_seat};
ghost use Rattle.shared_fleet.specs.Tokens.{ArePasses, fresh_pass, fresh_passes, of_robot, without_entries};
ghost use Rattle.shared_fleet.specs.Resting.{note, shared_of};

use crate::book::Book;
use crate::kept::Kept;
use crate::pass::Pass;
use std::alloc::Global;
use std::marker::Model;
use turn_lock::{TurnLock, TurnSeat};

/// A coordinator that robots call through their passes, one at a time. Contracts see which lock it
/// has, the coordinator that it was set up with, and the `opened` of that one's book.
#[derive(Drop)]
pub struct SharedFleet {
    pub(crate) lock: TurnLock<Kept>,
    opened: u64,
}

impl Model for SharedFleet {
    ghost use Rattle.std.specs.Prelude.{◌<◌, length};
    ghost use Rattle.shared_fleet.specs.Tokens.{Shared};

    ghost Value = { Shared };

    ghost use Rattle.shared_fleet.specs.Resting.{shared_of};

    ghost view = { λ f. shared_of f.lock f.opened };

    ghost invariant = { λ f. 0 < length f.lock.opening.fleet.starts };
}

impl SharedFleet {
    /// Shares the book's coordinator, with one pass for each robot, in order. The error is want of
    /// memory alone, and hands the book back.
    pub fn set_up(alloc: Global, book: Book) -> Result<(SharedFleet, Vec<Pass>), Book>
        ensures opening { IfOk result (λ r. r.0.opening ≡ book.fleet) }
        ensures opened { IfOk result (λ r. r.0.opened ≡ book.opened) }
        ensures passes { IfOk result (λ r. r.1.items ≡ fresh_passes r.0) }
        ensures all { IfOk result (λ r. ArePasses r.0 r.1.items) }
        ensures err { IfErr result (λ b. b ≡ book) }
    {
        let Book { fleet, opened } = book;
        let robots = fleet.robots();
        let seen = fleet.journal().len() as u64;
        let Ok(room) = Vec::with_capacity(alloc, robots as usize) else {
            return Err(Book { fleet, opened });
        };
        match TurnLock::set_up(alloc, Kept { fleet }) {
            Ok((lock, first)) => {
                let passes = hand_out(&lock, first, robots, seen, room);
                Ok((SharedFleet { lock, opened }, passes))
            }
            Err(Kept { fleet }) => Err(Book { fleet, opened }),
        }
    }

    /// Takes all passes in, and gives the book back, with the `opened` of the one that was set up.
    pub fn close(self, passes: Vec<Pass>) -> Book
        requires { ArePasses self passes.items }
        ensures same { without_entries result.fleet ≡ without_entries self.opening }
        ensures opened { result.opened ≡ self.opened }
        ensures begins { IsPrefix self.opening.journal result.fleet.journal }
        ensures seen { All (λ p. IsPrefix p.seen result.fleet.journal) passes.items }
        ensures mine { All (λ p. of_robot p.robot (behind self.opening.journal result.fleet.journal) ≡ p.mine) passes.items }
        ensures others { (n : ℕ) → length self.opening.starts ≤ n → of_robot n (behind self.opening.journal result.fleet.journal) ≡ [] }
    {
        let SharedFleet { lock, opened } = self;
        let Kept { fleet } = take_in(lock, passes);
        Book { fleet, opened }
    }
}

// A pass for each robot, in order, in the room that was taken for them.
fn hand_out(
    lock: &TurnLock<Kept>,
    mut first: TurnSeat<Kept>,
    robots: u32,
    seen: u64,
    room: Vec<Pass>,
) -> Vec<Pass>
    requires some { 0 < robots }
    requires robots { robots ≡ length lock.now.opening.fleet.starts }
    requires first { first ≡ first_seat lock.now lock.now.opening.fleet.journal }
    requires seen { seen ≡ length lock.now.opening.fleet.journal }
    requires empty { room.items ≡ [] }
    requires room { robots ≤ vec_capacity room }
    ensures { result.items ≡ map (fresh_pass (shared_of lock.now 0)) (range_with_len 0 robots) }
{
    let mut passes = room;
    for _robot in 1..robots {
        let seat = lock.split(&mut first);
        let pass = Pass { seat, seen };
        if passes.push(pass).is_err() {
            unreachable!()
        }
    }
    let pass = Pass { seat: first, seen };
    if passes.insert(0, pass).is_err() {
        unreachable!()
    }
    passes
}

// Takes all passes in, and then the value out.
fn take_in(lock: TurnLock<Kept>, mut passes: Vec<Pass>) -> Kept
    requires some { 0 < length lock.opening.fleet.starts }
    requires all { (opened : ℕ) × ArePasses (shared_of lock opened) passes.items }
    ensures fixed { without_entries result.fleet ≡ without_entries lock.opening.fleet }
    ensures begins { IsPrefix lock.opening.fleet.journal result.fleet.journal }
    ensures known { All (λ p. Agrees (λ e. e.robot.0) lock.opening.fleet.journal result.fleet.journal (note p)) passes.items }
    ensures others { (n : ℕ) → length lock.opening.fleet.starts ≤ n → of_robot n (behind lock.opening.fleet.journal result.fleet.journal) ≡ [] }
{
    let leader = passes.remove(0);
    let Pass {
        seat: mut first,
        seen: _,
    } = leader;
    while let Some(pass) = passes.pop() {
        let Pass { seat, seen: _ } = pass;
        lock.join(&mut first, seat);
    }
    lock.close(first)
}
