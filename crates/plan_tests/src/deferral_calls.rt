//! Counts and blockers as an end changes, and a route that is handed back.

ghost use Rattle.std.specs.Prelude.{◌≡◌, ◌<◌, [], None, length, IfOk};
ghost use Rattle.deferral.specs.Backlogs.{end_claims, pending_of};

use deferral::Deferrals;
use fleet_base::answers::Blocker;
use fleet_base::claim_set::ClaimSet;
use fleet_base::claims::Claims;
use fleet_base::numbers::{CellNo, ClaimGroup, ClaimNo, RobotNo};
use fleet_base::path::{NoMemory, Path};
use std::alloc::Global;
use std::test::Fail;

// Two robots, and four claims that each stand alone.
fn two_robots(alloc: Global) -> Result<Deferrals, NoMemory>
    ensures robots { IfOk result (λ d. length d.pending ≡ 2) }
    ensures ends { IfOk result (λ d. length d.ends ≡ 2) }
    ensures free { IfOk result (λ d. pending_of d 0 ≡ None) }
    ensures blank { IfOk result (λ d. end_claims d 1 ≡ []) }
{
    let mut groups = [ClaimGroup {
        group: 0,
        alone: true,
    }; 4];
    groups[1].group = 1;
    groups[2].group = 2;
    groups[3].group = 3;
    Deferrals::new(alloc, &groups, 2)
}

// The claims 1 and 2.
fn two_claims() -> ClaimSet {
    let mut needs = ClaimSet::new();
    needs.put(ClaimNo(1));
    needs.put(ClaimNo(2));
    needs
}

// The first robot needs the claims 1 and 2.
fn wait(deferrals: &mut Deferrals, route: Path)
    requires known { 0 < length deferrals.old.pending }
    requires free { pending_of deferrals.old 0 ≡ None }
    ensures robots { length deferrals.new.pending ≡ length deferrals.old.pending }
    ensures ends { deferrals.new.ends ≡ deferrals.old.ends }
{
    deferrals.put(RobotNo(0), route, two_claims());
}

// The second robot's end changes.
fn tell(deferrals: &mut Deferrals, old: &Claims, new: &Claims)
    requires known { 1 < length deferrals.old.ends }
    requires told { old.now ≡ end_claims deferrals.old 1 }
    ensures robots { deferrals.new.pending ≡ deferrals.old.pending }
    ensures ends { length deferrals.new.ends ≡ length deferrals.old.ends }
    ensures told { end_claims deferrals.new 1 ≡ new.now }
{
    deferrals.end_changed(RobotNo(1), old, new);
}

// The first robot's route.
fn hand_back(deferrals: &mut Deferrals) -> Option<Path>
    requires { 0 < length deferrals.old.pending }
    ensures robots { length deferrals.new.pending ≡ length deferrals.old.pending }
    ensures ends { deferrals.new.ends ≡ deferrals.old.ends }
{
    deferrals.take(RobotNo(0))
}

#[test]
fn counts_follow_ends(rt: HostRuntime) -> Result<(), Fail> {
    let alloc = rt.alloc();
    let mut deferrals = two_robots(alloc)?;
    wait(&mut deferrals, Path::copy_of(alloc, &[CellNo(0)])?);
    let nothing = Claims::new(alloc);
    let mut both = Claims::new(alloc);
    both.put(ClaimNo(1));
    both.put(ClaimNo(2));
    tell(&mut deferrals, &nothing, &both);
    assert_eq!(rt; deferrals.count(RobotNo(0), RobotNo(1)), 2);
    assert!(rt; deferrals.edges().has(RobotNo(0), RobotNo(1)));
    let blocker = Blocker {
        claim: ClaimNo(1),
        by: RobotNo(1),
    };
    assert_eq!(rt; deferrals.blocker(RobotNo(0), &two_claims()), Some(blocker));
    assert!(rt; deferrals.is_kept_from(RobotNo(0), ClaimNo(1)));
    assert!(rt; !deferrals.is_kept_from(RobotNo(1), ClaimNo(1)));
    let mut second = Claims::new(alloc);
    second.put(ClaimNo(2));
    tell(&mut deferrals, &both, &second);
    assert_eq!(rt; deferrals.count(RobotNo(0), RobotNo(1)), 1);
    let mut third = Claims::new(alloc);
    third.put(ClaimNo(3));
    tell(&mut deferrals, &second, &third);
    assert_eq!(rt; deferrals.count(RobotNo(0), RobotNo(1)), 0);
    assert!(rt; !deferrals.edges().has(RobotNo(0), RobotNo(1)));
    assert_eq!(rt; deferrals.blocker(RobotNo(0), &two_claims()), None);
    assert!(rt; hand_back(&mut deferrals).is_some());
    assert_eq!(rt; deferrals.count(RobotNo(0), RobotNo(1)), 0);
    Ok(())
}

#[test]
fn hands_route_back(rt: HostRuntime) -> Result<(), Fail> {
    let alloc = rt.alloc();
    let mut deferrals = two_robots(alloc)?;
    let cells = [CellNo(0), CellNo(1), CellNo(2)];
    wait(&mut deferrals, Path::copy_of(alloc, &cells)?);
    assert!(rt; deferrals.pending(RobotNo(0)).is_some());
    let route = hand_back(&mut deferrals).ok_or("none")?;
    assert_eq!(rt; route.cells(), cells.as_slice());
    assert!(rt; deferrals.pending(RobotNo(0)).is_none());
    Ok(())
}
