//! For each claim the robots that need it and those whose ends keep it, and how many claims stand
//! between two robots.

ghost use Rattle.std.specs.Prelude.{◌≡◌, ℕ, ◌<◌, ◌≤◌, ◌==◌, ◌&&◌, nat_lt, true, false, length, IfOk, IsTrue, ◌↔◌};
ghost use Rattle.std.specs.FinSet as set;
ghost use Rattle.std.specs.Option.{option_map};
ghost use Rattle.fleet_base.specs.EdgeSets.{leads};
ghost use Rattle.deferral.specs.Tallies.{is_marked, mark_count, IsLeastOther, IsRemarked};

use crate::matrix::Matrix;
use bit_set::word;
use fleet_base::claim_set::ClaimSet;
use fleet_base::edges::Edges;
use fleet_base::limits::{MAX_CLAIMS, MAX_ROBOTS};
use fleet_base::numbers::{ClaimNo, RobotNo};
use std::alloc::{AllocError, Global};
use std::marker::Model;

// For each claim the set of the robots that need it and the set of those whose ends keep it, as
// words. From each robot to each other the number of claims that the one needs and the other's end
// keeps. Contracts see the two lists of words.
#[derive(Drop)]
pub(crate) struct Tally {
    needed: Vec<u64>,
    kept: Vec<u64>,
    matrix: Matrix,
}

impl Model for Tally {
    ghost use Rattle.deferral.specs.Codes.{marks_code};
    ghost use Rattle.deferral.specs.Tallies.{Marks, IsTallied};

    ghost Value = { Marks };

    ghost coded = { marks_code };

    ghost view = { λ t. record { needed = t.needed.items; kept = t.kept.items } };

    ghost invariant = { λ t. IsTallied (record { needed = t.needed.items; kept = t.kept.items }) t.matrix };
}

impl Tally {
    // No robot needs a claim, and no end keeps one.
    pub(crate) fn new(alloc: Global, claims: usize) -> Result<Tally, AllocError>
        requires { claims ≤ MAX_CLAIMS }
        ensures needed_claims { IfOk result (λ t. length t.needed ≡ claims) }
        ensures kept_claims { IfOk result (λ t. length t.kept ≡ claims) }
        ensures needed { IfOk result (λ t. (c r : ℕ) → is_marked t.needed c r ≡ false) }
        ensures kept { IfOk result (λ t. (c r : ℕ) → is_marked t.kept c r ≡ false) }
    {
        Ok(Tally {
            needed: vec![in alloc; 0; claims]?,
            kept: vec![in alloc; 0; claims]?,
            matrix: Matrix::new(alloc)?,
        })
    }

    // Whether there is a claim of this number.
    fn has_claim(&self, claim: ClaimNo) -> bool
        ensures { IsTrue result ↔ (claim.0 < length self.now.needed) }
    {
        (claim.0 as usize) < self.needed.len()
    }

    // Whether the robot's end keeps the claim.
    pub(crate) fn keeps(&self, robot: RobotNo, claim: ClaimNo) -> bool
        requires known { claim.0 < length self.now.kept }
        requires robot { robot.0 < MAX_ROBOTS }
        ensures { result ≡ is_marked self.now.kept claim.0 robot.0 }
    {
        word::has(self.kept[claim.0 as usize], robot.0)
    }

    // The least robot other than this one whose end keeps the claim.
    pub(crate) fn keeper(&self, claim: ClaimNo, robot: RobotNo) -> Option<RobotNo>
        requires robot { robot.0 < MAX_ROBOTS }
        ensures { IsLeastOther self.now.kept claim.0 robot.0 (option_map (λ by. by.0) result) }
    {
        let keepers = self.kept.get(claim.0 as usize)?;
        word::next(word::without(*keepers, robot.0), 0).map(RobotNo)
    }

    // The number of claims that a robot needs and that the other's end keeps.
    pub(crate) fn count(&self, from: RobotNo, to: RobotNo) -> u32
        requires from_known { from.0 < MAX_ROBOTS }
        requires to_known { to.0 < MAX_ROBOTS }
        ensures { result ≡ mark_count self.now from.0 to.0 }
    {
        self.matrix.count(from, to)
    }

    // An edge leads from a robot to another where that number isn't 0.
    pub(crate) fn edges(&self) -> &Edges
        ensures { (r q : ℕ) → leads result.now r q
            ≡ (nat_lt r 64 && (nat_lt q 64 && nat_lt 0 (mark_count self.now r q))) }
    {
        self.matrix.edges()
    }

    // The robot needs the claim from then on.
    fn add_need(&mut self, robot: RobotNo, claim: ClaimNo)
        requires known { claim.0 < length self.old.needed }
        requires robot { robot.0 < MAX_ROBOTS }
        requires free { is_marked self.old.needed claim.0 robot.0 ≡ false }
        ensures needed { IsRemarked self.old.needed self.new.needed
            (λ c r. r == robot.0 && c == claim.0) true }
        ensures kept { self.new.kept ≡ self.old.kept }
    {
        let place = claim.0 as usize;
        self.needed[place] = word::with(self.needed[place], robot.0);
        let keepers = word::without(self.kept[place], robot.0);
        self.matrix.raise_row(robot, keepers);
    }

    // The robot needs the claim no more.
    fn drop_need(&mut self, robot: RobotNo, claim: ClaimNo)
        requires known { claim.0 < length self.old.needed }
        requires robot { robot.0 < MAX_ROBOTS }
        requires there { is_marked self.old.needed claim.0 robot.0 ≡ true }
        ensures needed { IsRemarked self.old.needed self.new.needed
            (λ c r. r == robot.0 && c == claim.0) false }
        ensures kept { self.new.kept ≡ self.old.kept }
    {
        let place = claim.0 as usize;
        self.needed[place] = word::without(self.needed[place], robot.0);
        let keepers = word::without(self.kept[place], robot.0);
        self.matrix.lower_row(robot, keepers);
    }

    // The robot's end keeps the claim from then on.
    pub(crate) fn add_keeper(&mut self, robot: RobotNo, claim: ClaimNo)
        requires known { claim.0 < length self.old.kept }
        requires robot { robot.0 < MAX_ROBOTS }
        requires free { is_marked self.old.kept claim.0 robot.0 ≡ false }
        ensures needed { self.new.needed ≡ self.old.needed }
        ensures kept { IsRemarked self.old.kept self.new.kept
            (λ c r. r == robot.0 && c == claim.0) true }
    {
        let place = claim.0 as usize;
        self.kept[place] = word::with(self.kept[place], robot.0);
        let waiting = word::without(self.needed[place], robot.0);
        self.matrix.raise_column(waiting, robot);
    }

    // The robot's end keeps the claim no more.
    pub(crate) fn drop_keeper(&mut self, robot: RobotNo, claim: ClaimNo)
        requires known { claim.0 < length self.old.kept }
        requires robot { robot.0 < MAX_ROBOTS }
        requires there { is_marked self.old.kept claim.0 robot.0 ≡ true }
        ensures needed { self.new.needed ≡ self.old.needed }
        ensures kept { IsRemarked self.old.kept self.new.kept
            (λ c r. r == robot.0 && c == claim.0) false }
    {
        let place = claim.0 as usize;
        self.kept[place] = word::without(self.kept[place], robot.0);
        let waiting = word::without(self.needed[place], robot.0);
        self.matrix.lower_column(waiting, robot);
    }

    // The robot needs these claims from then on.
    pub(crate) fn add_needs(&mut self, robot: RobotNo, needs: &ClaimSet)
        requires robot { robot.0 < MAX_ROBOTS }
        requires free { (c : ℕ) → c < length self.old.needed → is_marked self.old.needed c robot.0 ≡ false }
        ensures needed { IsRemarked self.old.needed self.new.needed
            (λ c r. r == robot.0 && set.contains needs.now c) true }
        ensures kept { self.new.kept ≡ self.old.kept }
    {
        let mut from = ClaimNo(0);
        while let Some(claim) = needs.next(from) {
            if self.has_claim(claim) {
                self.add_need(robot, claim);
            }
            from = ClaimNo(claim.0 + 1);
        }
    }

    // The robot needs these claims no more.
    pub(crate) fn drop_needs(&mut self, robot: RobotNo, needs: &ClaimSet)
        requires robot { robot.0 < MAX_ROBOTS }
        requires there { (c : ℕ) → c < length self.old.needed → set.contains needs.now c ≡ true
            → is_marked self.old.needed c robot.0 ≡ true }
        ensures needed { IsRemarked self.old.needed self.new.needed
            (λ c r. r == robot.0 && set.contains needs.now c) false }
        ensures kept { self.new.kept ≡ self.old.kept }
    {
        let mut from = ClaimNo(0);
        while let Some(claim) = needs.next(from) {
            if self.has_claim(claim) {
                self.drop_need(robot, claim);
            }
            from = ClaimNo(claim.0 + 1);
        }
    }
}
