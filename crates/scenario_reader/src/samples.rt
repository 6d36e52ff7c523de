//! Samples of the definitions of scenarios, written out and proved by computing them.

ghost use Rattle.std.specs.Prelude.{◌≡◌, codes, Ok, Err};
ghost use Rattle.site_lines.specs.declared.fault.Code.TheVariants.{S16, S20, S21, S22};
ghost use Rattle.scenario.specs.Canonical.{canonical_text};
ghost use Rattle.scenario_reader.specs.Reading.{scenario_of};
ghost use Rattle.scenario_reader.specs.Tables.{mapped};

/// A scenario and its canonical text.
#[tactic(auto, unfolding(crate::specs::Reading::scenario_of, scenario::specs::Canonical::canonical_text))]
pub fn two_yards()
    ensures { mapped canonical_text (scenario_of (codes "# two yards\nfleet 1\ncell a b\ncell c\narea yard c a\nlane a b 2\nlink b c 3\nrobot r1 a\nmission r1\nrepeat 2\nvisit yard\nvisit b\nagain\ndone\nend\n"))
        ≡ Ok (codes "fleet 1\ncell a\ncell b\ncell c\narea yard a c\nlink a b 2\nlink b a 2\nlink b c 3\nrobot r1 a\nmission r1\nvisit yard\nvisit b\nvisit yard\nvisit b\ndone\nend\n") }
{}
