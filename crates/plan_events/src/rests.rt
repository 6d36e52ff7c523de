//! The places of an expansion at which a robot rests.

ghost use Rattle.std.specs.Prelude.{◌≡◌, ◌==◌, ◌≤◌, List, length, slice_get};
ghost use Rattle.std.specs.List.{list_any};
ghost use Rattle.fleet_base.specs.declared.numbers.CellNo.{CellNo};
ghost use Rattle.fleet_model.specs.Sites.{rest_points, steps_from, Site};
ghost use Rattle.plan_events.specs.Kinds.{kind_before, may_begin_step, may_end_step};

use fleet_base::numbers::Kind;

/// Whether the place in the expansion of a walk is one of the walk's rest points: no step is begun
/// there. This holds of each walk whose expansion the kinds are, over any site. It takes constant
/// time.
pub fn rest_before(kinds: &[Kind], place: usize) -> bool
    requires { place ≤ length kinds.now }
    ensures { (site : Site) (from : CellNo) (cells : List CellNo) → kinds.now ≡ steps_from site from cells → result ≡ list_any (λ n. n == place) (rest_points site from cells) }
{
    may_end_step(kind_before(kinds, place)) && may_begin_step(kind_at(kinds, place))
}

// The kind before the place, if there is one.
fn kind_before(kinds: &[Kind], place: usize) -> Option<Kind>
    requires { place ≤ length kinds.now }
    ensures { result ≡ kind_before kinds.now place }
{
    if place == 0 {
        None
    } else {
        Some(kinds[place - 1])
    }
}

// The kind at the place, if there is one.
fn kind_at(kinds: &[Kind], place: usize) -> Option<Kind>
    ensures { result ≡ slice_get kinds.now place }
{
    kinds.get(place).copied()
}

// Whether a step can end with the kind.
fn may_end_step(last: Option<Kind>) -> bool
    ensures { result ≡ may_end_step last }
{
    !matches!(last, Some(Kind::Acquire(_)))
}

// Whether a step can begin with the kind.
fn may_begin_step(first: Option<Kind>) -> bool
    ensures { result ≡ may_begin_step first }
{
    !matches!(first, Some(Kind::Release(_)))
}
