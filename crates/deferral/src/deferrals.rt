//! The deferral relation.

ghost use Rattle.std.specs.Prelude.{◌≡◌, ℕ, ◌<◌, ◌≤◌, [], None, Some, length, replicate, slice_set, IfOk};
ghost use Rattle.std.specs.Option.{option_map};
ghost use Rattle.fleet_base.specs.EdgeSets.{leads};
ghost use Rattle.deferral.specs.Backlogs.{blocker_count, is_deferred_on, is_kept_from, route_of, end_claims, pending_of, IsLeastBlocker};

use crate::ends::End;
use crate::keeping::{free_all, keep_all};
use crate::pending::Pending;
use crate::tally::Tally;
use claim_reach::{Reach, reaches};
use fleet_base::answers::Blocker;
use fleet_base::claim_set::ClaimSet;
use fleet_base::claims::Claims;
use fleet_base::edges::Edges;
use fleet_base::limits::{MAX_CLAIMS, MAX_ROBOTS};
use fleet_base::numbers::{CellNo, ClaimGroup, ClaimNo, RobotNo};
use fleet_base::path::{NoMemory, Path};
use std::alloc::{AllocError, Global};
use std::marker::Model;

/// The pending routes of robots and the claims of their ends, with the deferral relation that
/// follows from them. Only `new` takes memory. Contracts see the claims' groups, the pending
/// routes with their needs, and the ends.
#[derive(Drop)]
pub struct Deferrals {
    groups: Vec<ClaimGroup>,
    // For each claim the numbers among which those in conflict with it are.
    reaches: Vec<Reach>,
    pending: Vec<Option<Pending>>,
    ends: Vec<End>,
    tally: Tally,
}

impl Model for Deferrals {
    ghost use Rattle.deferral.specs.Backlogs.{Backlog};
    ghost use Rattle.deferral.specs.Codes.{backlog_code};

    ghost Value = { Backlog };

    ghost coded = { backlog_code };

    ghost use Rattle.deferral.specs.Kept.{shown, IsKept};

    ghost view = { shown };

    ghost invariant = { IsKept };
}

impl Deferrals {
    /// No route is pending, and no end has claims. All room is taken here.
    pub fn new(alloc: Global, groups: &[ClaimGroup], robots: u32) -> Result<Deferrals, NoMemory>
        requires claims_limit { length groups.now ≤ MAX_CLAIMS }
        requires robots_limit { robots ≤ MAX_ROBOTS }
        ensures { IfOk result (λ d. d ≡ record {
          groups = groups.now;
          pending = replicate robots None;
          ends = replicate robots [];
        }) }
    {
        let reaches = reaches(alloc, groups)?;
        let tally = Tally::new(alloc, groups.len())?;
        let groups = Vec::from_slice(alloc, groups)?;
        let mut pending = Vec::with_capacity(alloc, robots as usize)?;
        let mut ends = Vec::with_capacity(alloc, robots as usize)?;
        for _robot in 0..robots {
            pending.push(None).map_err(AllocError::from)?;
            ends.push(End::of(&[])).map_err(AllocError::from)?;
        }
        Ok(Deferrals {
            groups,
            reaches,
            pending,
            ends,
            tally,
        })
    }

    /// Keeps a route, with the claims that it needs, as the robot's pending one.
    pub fn put(&mut self, robot: RobotNo, route: Path, needs: ClaimSet)
        requires known { robot.0 < length self.old.pending }
        requires free { pending_of self.old robot.0 ≡ None }
        ensures { self.new ≡ record self.old {
          pending = slice_set self.old.pending robot.0 (Some (record { route = route; needs = needs }));
        } }
    {
        self.tally.add_needs(robot, &needs);
        self.pending[robot.0 as usize] = Some(Pending { route, needs });
    }

    /// Hands the robot's pending route back, which isn't pending from then on. None where it has none.
    pub fn take(&mut self, robot: RobotNo) -> Option<Path>
        requires known { robot.0 < length self.old.pending }
        ensures route { result ≡ route_of self.old robot.0 }
        ensures after { self.new ≡ record self.old { pending = slice_set self.old.pending robot.0 None } }
    {
        let Pending { route, needs } = self.pending[robot.0 as usize].take()?;
        self.tally.drop_needs(robot, &needs);
        Some(route)
    }

    /// The claims of the robot's end change. `old` is what they were.
    pub fn end_changed(&mut self, robot: RobotNo, old: &Claims, new: &Claims)
        requires known { robot.0 < length self.old.ends }
        requires told { old.now ≡ end_claims self.old robot.0 }
        ensures { self.new ≡ record self.old { ends = slice_set self.old.ends robot.0 new.now } }
    {
        free_all(
            &mut self.tally,
            &self.groups,
            &self.reaches,
            robot,
            old.list(),
        );
        keep_all(
            &mut self.tally,
            &self.groups,
            &self.reaches,
            robot,
            new.list(),
        );
        self.ends[robot.0 as usize] = End::of(new.list());
    }

    /// The cells of the robot's pending route. None where it has none.
    pub fn pending(&self, robot: RobotNo) -> Option<&[CellNo]>
        requires { robot.0 < length self.now.pending }
        ensures { option_map (λ cells. cells.now) result ≡ route_of self.now robot.0 }
    {
        match &self.pending[robot.0 as usize] {
            Some(pending) => Some(pending.route.cells()),
            None => None,
        }
    }

    /// The number of the claims by which the other robot's end keeps the pending route from being
    /// merged.
    pub fn count(&self, from: RobotNo, to: RobotNo) -> u32
        requires from_known { from.0 < length self.now.pending }
        requires to_known { to.0 < length self.now.ends }
        ensures { result ≡ blocker_count self.now from.0 to.0 }
    {
        self.tally.count(from, to)
    }

    /// Whether the end of a robot other than this one keeps the claim.
    pub fn is_kept_from(&self, robot: RobotNo, claim: ClaimNo) -> bool
        requires { robot.0 < length self.now.pending }
        ensures { result ≡ is_kept_from self.now robot.0 claim.0 }
    {
        self.tally.keeper(claim, robot).is_some()
    }

    /// The blocker of a route of the robot that needs these claims: the one of least claim, and of
    /// these the one of least robot. None exactly where no other robot's end keeps a needed claim.
    pub fn blocker(&self, robot: RobotNo, needs: &ClaimSet) -> Option<Blocker>
        requires { robot.0 < length self.now.pending }
        ensures { IsLeastBlocker self.now robot.0 needs.now result }
    {
        let mut from = ClaimNo(0);
        while let Some(claim) = needs.next(from) {
            if let Some(by) = self.tally.keeper(claim, robot) {
                return Some(Blocker { claim, by });
            }
            from = ClaimNo(claim.0 + 1);
        }
        None
    }

    /// The deferral relation: an edge leads from a robot to another where the other's end keeps a
    /// claim that the robot's pending route needs.
    pub fn edges(&self) -> &Edges
        ensures { (r q : ℕ) → leads result.now r q ≡ is_deferred_on self.now r q }
    {
        self.tally.edges()
    }
}
