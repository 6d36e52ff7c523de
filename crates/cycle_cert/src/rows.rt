//! Sets of robots along the edges, as the bits of one word each.

ghost use Rattle.std.specs.Prelude.{◌≡◌, ◌<◌, ◌≤◌, ◌↔◌, ℕ, true, IfSome, IfNone};
ghost use Rattle.fleet_base.specs.EdgeSets.{leads};
ghost use Rattle.bit_set.specs.Words.{is_in};
ghost use Rattle.cycle_cert.specs.Members.{LeadsInto};

use bit_set::word;
use fleet_base::edges::Edges;
use fleet_base::limits::MAX_ROBOTS;
use fleet_base::numbers::RobotNo;

// Robots among which are all that edges lead from.
pub(crate) fn sources_of(edges: &Edges) -> u64
    ensures { (v q : ℕ) → v < 64 → leads edges.now v q ≡ true → is_in result v ≡ true }
{
    let mut found = 0;
    for robot in 0..MAX_ROBOTS {
        if edges.row(RobotNo(robot)) != 0 {
            found = word::with(found, robot);
        }
    }
    found
}

// The robots that lead to some robot of the set. The robots that edges lead from are among these.
pub(crate) fn before(edges: &Edges, sources: u64, set: u64) -> u64
    requires { (v q : ℕ) → v < 64 → leads edges.now v q ≡ true → is_in sources v ≡ true }
    ensures { (v : ℕ) → v < 64 → (is_in result v ≡ true) ↔ LeadsInto (leads edges.now) set v }
{
    let mut found = 0;
    let mut bound = 0;
    while let Some(robot) = word::next(sources, bound) {
        if next_in(edges, RobotNo(robot), set).is_some() {
            found = word::with(found, robot);
        }
        bound = robot + 1;
    }
    found
}

// The least robot of the set that this one leads to.
pub(crate) fn next_in(edges: &Edges, at: RobotNo, set: u64) -> Option<RobotNo>
    requires { at.0 < MAX_ROBOTS }
    ensures follows { IfSome result (λ q. leads edges.now at.0 q.0 ≡ true) }
    ensures inside { IfSome result (λ q. is_in set q.0 ≡ true) }
    ensures least { IfSome result (λ q. (m : ℕ) →
        leads edges.now at.0 m ≡ true → is_in set m ≡ true → q.0 ≤ m) }
    ensures none { IfNone result (LeadsInto (leads edges.now) set at.0 → ⊥) }
{
    let next = word::next(edges.row(at) & set, 0)?;
    Some(RobotNo(next))
}
