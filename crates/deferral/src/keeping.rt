//! Which claims the end of a robot keeps, as the end changes.

ghost use Rattle.std.specs.Prelude.{◌≡◌, ℕ, ◌<◌, ◌==◌, ◌&&◌, true, false, length};
ghost use Rattle.fleet_model.specs.Sites.{in_conflict};
ghost use Rattle.claim_reach.specs.Reaches.{AreReaches};
ghost use Rattle.deferral.specs.Backlogs.{is_kept};
ghost use Rattle.deferral.specs.Tallies.{IsRemarked};

use crate::tally::Tally;
use claim_reach::{Reach, conflict};
use fleet_base::limits::MAX_ROBOTS;
use fleet_base::numbers::{ClaimGroup, ClaimNo, RobotNo};

// The robot's end keeps what conflicts with this claim.
fn keep(tally: &mut Tally, groups: &[ClaimGroup], reaches: &[Reach], robot: RobotNo, claim: ClaimNo)
    requires robot { robot.0 < MAX_ROBOTS }
    requires claims { length tally.old.kept ≡ length groups.now }
    requires reaches { AreReaches groups.now reaches.now }
    ensures needed { tally.new.needed ≡ tally.old.needed }
    ensures kept { IsRemarked tally.old.kept tally.new.kept
        (λ c r. r == robot.0 && in_conflict groups.now (record { 0 = c }) claim) true }
{
    let Some(reach) = reaches.get(claim.0 as usize) else {
        return;
    };
    for number in reach.first..reach.end {
        let near = ClaimNo(number);
        if conflict(groups, near, claim) && !tally.keeps(robot, near) {
            tally.add_keeper(robot, near);
        }
    }
}

// The robot's end keeps what conflicts with this claim no more.
fn free(tally: &mut Tally, groups: &[ClaimGroup], reaches: &[Reach], robot: RobotNo, claim: ClaimNo)
    requires robot { robot.0 < MAX_ROBOTS }
    requires claims { length tally.old.kept ≡ length groups.now }
    requires reaches { AreReaches groups.now reaches.now }
    ensures needed { tally.new.needed ≡ tally.old.needed }
    ensures kept { IsRemarked tally.old.kept tally.new.kept
        (λ c r. r == robot.0 && in_conflict groups.now (record { 0 = c }) claim) false }
{
    let Some(reach) = reaches.get(claim.0 as usize) else {
        return;
    };
    for number in reach.first..reach.end {
        let near = ClaimNo(number);
        if conflict(groups, near, claim) && tally.keeps(robot, near) {
            tally.drop_keeper(robot, near);
        }
    }
}

// The robot's end keeps what conflicts with one of these claims.
pub(crate) fn keep_all(
    tally: &mut Tally,
    groups: &[ClaimGroup],
    reaches: &[Reach],
    robot: RobotNo,
    claims: &[ClaimNo],
)
    requires robot { robot.0 < MAX_ROBOTS }
    requires claims { length tally.old.kept ≡ length groups.now }
    requires reaches { AreReaches groups.now reaches.now }
    ensures needed { tally.new.needed ≡ tally.old.needed }
    ensures kept { IsRemarked tally.old.kept tally.new.kept
        (λ c r. r == robot.0 && is_kept groups.now claims.now c) true }
{
    for claim in claims {
        keep(tally, groups, reaches, robot, *claim);
    }
}

// The robot's end keeps what conflicts with one of these claims no more.
pub(crate) fn free_all(
    tally: &mut Tally,
    groups: &[ClaimGroup],
    reaches: &[Reach],
    robot: RobotNo,
    claims: &[ClaimNo],
)
    requires robot { robot.0 < MAX_ROBOTS }
    requires claims { length tally.old.kept ≡ length groups.now }
    requires reaches { AreReaches groups.now reaches.now }
    ensures needed { tally.new.needed ≡ tally.old.needed }
    ensures kept { IsRemarked tally.old.kept tally.new.kept
        (λ c r. r == robot.0 && is_kept groups.now claims.now c) false }
{
    for claim in claims {
        free(tally, groups, reaches, robot, *claim);
    }
}
