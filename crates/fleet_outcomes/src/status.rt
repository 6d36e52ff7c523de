//! The status of a run.

ghost use Rattle.std.specs.Prelude.{◌≡◌};
ghost use Rattle.std.specs.List.{list_all, list_any};
ghost use Rattle.mission_model.specs.Outcomes.{is_done as done_by, is_full as full_by, status_of};

use mission_model::outcome::Outcome;

/// The status of a run that ends with these outcomes: 0 where each robot is done, else 7 where one
/// lacks room, else 4.
pub fn status_of(outcomes: &[Outcome]) -> u8
    ensures { result ≡ status_of outcomes.now }
{
    if all_done(outcomes) {
        0
    } else if any_full(outcomes) {
        7
    } else {
        4
    }
}

fn all_done(outcomes: &[Outcome]) -> bool
    ensures { result ≡ list_all done_by outcomes.now }
{
    outcomes.iter().all(is_done)
}

fn any_full(outcomes: &[Outcome]) -> bool
    ensures { result ≡ list_any full_by outcomes.now }
{
    outcomes.iter().any(is_full)
}

fn is_done(outcome: &Outcome) -> bool
    ensures { result ≡ done_by outcome.now }
{
    matches!(outcome, Outcome::Done)
}

fn is_full(outcome: &Outcome) -> bool
    ensures { result ≡ full_by outcome.now }
{
    matches!(outcome, Outcome::Full)
}
