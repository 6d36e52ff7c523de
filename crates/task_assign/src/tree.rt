//! Rows that are reached from a row over columns that they meet.

ghost use Rattle.std.specs.Prelude.{◌≡◌, ◌<◌, ◌≤◌, ◌+◌, ◌==◌, ℕ, Bool, true, false, ◌↔◌, IsTrue, IfSome, IfNone, if◌then◌else◌};
ghost use Rattle.task_assign.specs.Pairings.{IsPairing};
ghost use Rattle.task_assign.specs.Bounds.{column_in, meets, AreSound};
ghost use Rattle.task_assign.specs.Trees.{row_in, from_in, is_reached, IsTree, AreLinked, IsGrown, IsExplored, IsClosed, IsEnd, IsLeft, IsTurned};

use crate::costs::Costs;
use crate::numbers::Numbers;
use crate::pairing::Pairing;

// The rows of a square that are reached from the first of them. From each other the way leads
// back to it. Rows before `first` aren't reached, and at those up to `last` a way ends.
#[derive(Drop)]
pub(crate) struct Tree {
    pub(crate) size: u32,
    pub(crate) first: u32,
    pub(crate) last: u32,
    // The rows, in the order in which they were reached.
    pub(crate) rows: [u32; 64],
    // By the places of the rows: the place of the row from which each was reached.
    pub(crate) from: [u32; 64],
    pub(crate) count: u32,
    // By rows.
    pub(crate) reached: [bool; 64],
}

// The end of a way: a row whose column the row at a place of a tree meets.
#[derive(Drop)]
pub(crate) struct End {
    pub(crate) place: u32,
    pub(crate) row: u32,
}

impl Tree {
    // The row alone.
    pub(crate) fn new(row: u32, size: u32, first: u32, last: u32) -> Tree
        requires few { size ≤ 64 }
        requires known { row < size }
        requires last_known { last < size }
        ensures tree { IsTree result }
        ensures root { row_in result 0 ≡ row }
        ensures alone { result.count ≡ 1 }
        ensures sized { result.size ≡ size }
        ensures begins { result.first ≡ first }
        ensures ends { result.last ≡ last }
    {
        let mut reached = [false; 64];
        reached[row as usize] = true;
        Tree {
            size,
            first,
            last,
            rows: [row; 64],
            from: [0; 64],
            count: 1,
            reached,
        }
    }

    // Reaches from the row at the place one that wasn't reached.
    fn push(&mut self, place: u32, row: u32)
        requires tree { IsTree self.old }
        requires known { row < self.old.size }
        requires behind { self.old.last < row }
        requires free { is_reached self.old row ≡ false }
        requires place_known { place < self.old.count }
        ensures tree { IsTree self.new }
        ensures grown { IsGrown self.old self.new }
        ensures reached { is_reached self.new row ≡ true }
        ensures linked { (tight : ℕ → ℕ → Bool) → (column : ℕ → ℕ) → AreLinked tight column self.old
            → tight (row_in self.old place) (column row) ≡ true → AreLinked tight column self.new }
    {
        self.rows[self.count as usize] = row;
        self.from[self.count as usize] = place;
        self.count += 1;
        self.reached[row as usize] = true;
    }

    // Reaches all rows that can be, until a way ends.
    pub(crate) fn grow(
        &mut self,
        costs: &Costs,
        pairing: &Pairing,
        numbers: &Numbers,
    ) -> Option<End>
        requires sized { self.old.size ≡ costs.now.size }
        requires tree { IsTree self.old }
        requires linked { AreLinked (meets costs.now numbers.now) (column_in pairing.now) self.old }
        requires pairing { IsPairing costs.now.size (column_in pairing.now) }
        requires sound { AreSound costs.now numbers.now }
        ensures tree { IsTree self.new }
        ensures grown { IsGrown self.old self.new }
        ensures linked { AreLinked (meets costs.now numbers.now) (column_in pairing.now) self.new }
        ensures ended { IfSome result (λ end. IsEnd (meets costs.now numbers.now) (column_in pairing.now) self.new end) }
        ensures closed { IfNone result (IsClosed (meets costs.now numbers.now) (column_in pairing.now) self.new) }
    {
        for place in 0..64 {
            if place >= self.count {
                return None;
            }
            if let Some(row) = self.explore(costs, pairing, numbers, place) {
                return Some(End { place, row });
            }
        }
        None
    }

    // Reaches all rows whose columns the row at the place meets, until a way ends.
    fn explore(
        &mut self,
        costs: &Costs,
        pairing: &Pairing,
        numbers: &Numbers,
        place: u32,
    ) -> Option<u32>
        requires sized { self.old.size ≡ costs.now.size }
        requires tree { IsTree self.old }
        requires linked { AreLinked (meets costs.now numbers.now) (column_in pairing.now) self.old }
        requires pairing { IsPairing costs.now.size (column_in pairing.now) }
        requires sound { AreSound costs.now numbers.now }
        requires place_known { place < self.old.count }
        ensures tree { IsTree self.new }
        ensures grown { IsGrown self.old self.new }
        ensures linked { AreLinked (meets costs.now numbers.now) (column_in pairing.now) self.new }
        ensures ended { IfSome result (λ row. (end : _)
            × (end ≡ record { place = place; row = row })
            × IsEnd (meets costs.now numbers.now) (column_in pairing.now) self.new end) }
        ensures explored { IfNone result (IsExplored (meets costs.now numbers.now) (column_in pairing.now) self.new (row_in self.old place)) }
    {
        let from = self.rows[place as usize];
        for row in self.first..self.size {
            if numbers.meet(costs, from, pairing.column(row)) {
                if row <= self.last {
                    return Some(row);
                }
                if !self.reached[row as usize] {
                    self.push(place, row);
                }
            }
        }
        None
    }

    // Whether the row isn't raised together with its column.
    pub(crate) fn is_left(&self, row: u32) -> bool
        requires { row < 64 }
        ensures { IsTrue result ↔ IsLeft self.now row }
    {
        row <= self.last || !self.reached[row as usize]
    }

    // Along the way back from its end, each row gets the column that it meets.
    pub(crate) fn turn(&self, pairing: &mut Pairing, end: &End)
        requires tree { IsTree self.now }
        requires reached { end.now.place < self.now.count }
        requires ends { end.now.row ≤ self.now.last }
        ensures pairing { IsPairing self.now.size (column_in pairing.old) → IsPairing self.now.size (column_in pairing.new) }
        ensures turned { (tight : ℕ → ℕ → Bool) → AreLinked tight (column_in pairing.old) self.now
            → tight (row_in self.now end.now.place) (column_in pairing.old end.now.row) ≡ true
            → IsTurned tight self.now end.now.row (column_in pairing.old) (column_in pairing.new) }
    {
        let mut place = end.place;
        while place > 0 {
            pairing.exchange(end.row, self.rows[place as usize]);
            place = self.from[place as usize];
        }
        pairing.exchange(end.row, self.rows[0]);
    }
}
