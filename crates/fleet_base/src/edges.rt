//! A relation between robots in place.

ghost use Rattle.std.specs.Prelude.{◌≡◌, ℕ, ◌<◌, ◌==◌, ◌&&◌, false, if◌then◌else◌};
ghost use Rattle.bit_set.specs.Words.{is_in};
ghost use Rattle.fleet_base.specs.EdgeSets.{edge_place, leads};

use crate::limits::MAX_ROBOTS;
use crate::numbers::RobotNo;
use bit_set::BitSet;
use std::marker::Model;

/// Edges between robots with numbers below 64: from each robot to each, itself too, an edge leads
/// or not. It takes no memory.
#[derive(Clone, Copy)]
pub struct Edges {
    // A row of 64 bits for each robot that edges lead from.
    rows: BitSet<64>,
}

impl Model for Edges {
    ghost use Rattle.std.specs.Ordering.{nat_cmp};
    ghost use Rattle.std.specs.Coded.{coded_ℕ};
    ghost use Rattle.std.specs.FinSet as set;

    ghost Value = { set.FinSet nat_cmp };

    ghost coded = { set.code coded_ℕ };

    ghost view = { λ e. e.rows };

    ghost inverse = { λ places. record { rows = places } };
}

impl Edges {
    /// No edges.
    pub fn new() -> Self
        ensures { (r q : ℕ) → leads result r q ≡ false }
    {
        Edges {
            rows: BitSet::new(),
        }
    }

    /// Whether an edge leads from the first robot to the second.
    pub fn has(&self, from: RobotNo, to: RobotNo) -> bool
        requires from_known { from.0 < MAX_ROBOTS }
        requires to_known { to.0 < MAX_ROBOTS }
        ensures { result ≡ leads self.now from.0 to.0 }
    {
        self.rows.contains(place_of(from, to))
    }

    /// The robots that edges lead to from this one, as the bits of one word.
    pub fn row(&self, from: RobotNo) -> u64
        requires { from.0 < MAX_ROBOTS }
        ensures { (q : ℕ) → is_in result q ≡ leads self.now from.0 q }
    {
        self.rows.word(from.0 as usize)
    }

    /// Makes the edge from the first robot to the second lead or not. No other edge changes.
    pub fn set(&mut self, from: RobotNo, to: RobotNo, there: bool)
        requires from_known { from.0 < MAX_ROBOTS }
        requires to_known { to.0 < MAX_ROBOTS }
        ensures { (r q : ℕ) → leads self.new r q
            ≡ (if r == from.0 && q == to.0 then there else leads self.old r q) }
    {
        if there {
            self.rows.insert(place_of(from, to));
        } else {
            self.rows.remove(place_of(from, to));
        }
    }
}

// The place of an edge: a row of 64 bits for each robot that edges lead from.
fn place_of(from: RobotNo, to: RobotNo) -> u32
    requires from_known { from.0 < MAX_ROBOTS }
    requires to_known { to.0 < MAX_ROBOTS }
    ensures { result ≡ edge_place from.0 to.0 }
{
    64 * from.0 + to.0
}
