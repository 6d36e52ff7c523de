//! Counts from robot to robot, and edges where they aren't 0.

ghost use Rattle.std.specs.Prelude.{◌≡◌, ℕ, ◌+◌, ◌<◌, ◌==◌, ◌&&◌, nat_lt, true, replicate, IfOk};
ghost use Rattle.bit_set.specs.Words.{is_in};
ghost use Rattle.fleet_base.specs.EdgeSets.{edge_place, leads};
ghost use Rattle.deferral.specs.Matrices.{count_at, one_if};

use bit_set::word;
use fleet_base::edges::Edges;
use fleet_base::limits::{MAX_CLAIMS, MAX_ROBOTS};
use fleet_base::numbers::RobotNo;
use std::alloc::{AllocError, Global};
use std::marker::Model;

// A count from each robot to each, with an edge where it isn't 0. Contracts see the list of the
// counts, 64 for each robot.
#[derive(Drop)]
pub(crate) struct Matrix {
    counts: Vec<u16>,
    edges: Edges,
}

impl Model for Matrix {
    ghost use Rattle.std.specs.Prelude.{ℕ, List};
    ghost use Rattle.deferral.specs.Matrices.{IsMatrix};

    ghost Value = { List ℕ };

    ghost view = { λ m. m.counts.items };

    ghost invariant = { λ m. IsMatrix m.counts.items m.edges };
}

impl Matrix {
    // All counts are 0.
    pub(crate) fn new(alloc: Global) -> Result<Matrix, AllocError>
        ensures { IfOk result (λ m. (r q : ℕ) → count_at m r q ≡ 0) }
    {
        Ok(Matrix {
            counts: vec![in alloc; 0; 4096]?,
            edges: Edges::new(),
        })
    }

    // The count from a robot to another.
    pub(crate) fn count(&self, from: RobotNo, to: RobotNo) -> u32
        requires from_known { from.0 < MAX_ROBOTS }
        requires to_known { to.0 < MAX_ROBOTS }
        ensures { result ≡ count_at self.now from.0 to.0 }
    {
        u32::from(self.counts[place_of(from, to)])
    }

    // The edges lead where counts aren't 0.
    pub(crate) fn edges(&self) -> &Edges
        ensures { (r q : ℕ) → leads result.now r q
            ≡ (nat_lt r 64 && nat_lt 0 (count_at self.now r q)) }
    {
        &self.edges
    }

    // One more from a robot to another.
    fn raise(&mut self, from: RobotNo, to: RobotNo)
        requires from_known { from.0 < MAX_ROBOTS }
        requires to_known { to.0 < MAX_ROBOTS }
        requires small { count_at self.old from.0 to.0 < MAX_CLAIMS }
        ensures { (r q : ℕ) → count_at self.new r q
            ≡ count_at self.old r q + one_if (r == from.0 && q == to.0) }
    {
        self.counts[place_of(from, to)] += 1;
        self.edges.set(from, to, true);
    }

    // One less from a robot to another.
    fn lower(&mut self, from: RobotNo, to: RobotNo)
        requires from_known { from.0 < MAX_ROBOTS }
        requires to_known { to.0 < MAX_ROBOTS }
        requires some { 0 < count_at self.old from.0 to.0 }
        ensures { (r q : ℕ) → count_at self.new r q + one_if (r == from.0 && q == to.0)
            ≡ count_at self.old r q }
    {
        let place = place_of(from, to);
        self.counts[place] -= 1;
        if self.counts[place] == 0 {
            self.edges.set(from, to, false);
        }
    }

    // One more from the robot to each of the set.
    pub(crate) fn raise_row(&mut self, from: RobotNo, to: u64)
        requires known { from.0 < MAX_ROBOTS }
        requires small { (q : ℕ) → is_in to q ≡ true → count_at self.old from.0 q < MAX_CLAIMS }
        ensures { (r q : ℕ) → count_at self.new r q
            ≡ count_at self.old r q + one_if (r == from.0 && is_in to q) }
    {
        let mut bound = 0;
        while let Some(robot) = word::next(to, bound) {
            self.raise(from, RobotNo(robot));
            bound = robot + 1;
        }
    }

    // One less from the robot to each of the set.
    pub(crate) fn lower_row(&mut self, from: RobotNo, to: u64)
        requires known { from.0 < MAX_ROBOTS }
        requires some { (q : ℕ) → is_in to q ≡ true → 0 < count_at self.old from.0 q }
        ensures { (r q : ℕ) → count_at self.new r q + one_if (r == from.0 && is_in to q)
            ≡ count_at self.old r q }
    {
        let mut bound = 0;
        while let Some(robot) = word::next(to, bound) {
            self.lower(from, RobotNo(robot));
            bound = robot + 1;
        }
    }

    // One more from each of the set to the robot.
    pub(crate) fn raise_column(&mut self, from: u64, to: RobotNo)
        requires known { to.0 < MAX_ROBOTS }
        requires small { (r : ℕ) → is_in from r ≡ true → count_at self.old r to.0 < MAX_CLAIMS }
        ensures { (r q : ℕ) → count_at self.new r q
            ≡ count_at self.old r q + one_if (q == to.0 && is_in from r) }
    {
        let mut bound = 0;
        while let Some(robot) = word::next(from, bound) {
            self.raise(RobotNo(robot), to);
            bound = robot + 1;
        }
    }

    // One less from each of the set to the robot.
    pub(crate) fn lower_column(&mut self, from: u64, to: RobotNo)
        requires known { to.0 < MAX_ROBOTS }
        requires some { (r : ℕ) → is_in from r ≡ true → 0 < count_at self.old r to.0 }
        ensures { (r q : ℕ) → count_at self.new r q + one_if (q == to.0 && is_in from r)
            ≡ count_at self.old r q }
    {
        let mut bound = 0;
        while let Some(robot) = word::next(from, bound) {
            self.lower(RobotNo(robot), to);
            bound = robot + 1;
        }
    }
}

// The place of a count: 64 places for each robot that it is from.
fn place_of(from: RobotNo, to: RobotNo) -> usize
    requires from_known { from.0 < MAX_ROBOTS }
    requires to_known { to.0 < MAX_ROBOTS }
    ensures { result ≡ edge_place from.0 to.0 }
{
    64 * from.0 as usize + to.0 as usize
}
