//! A sample of the law, written out and proved by computing it.

ghost use Rattle.std.specs.Prelude.{◌≡◌, codes, Ok};
ghost use Rattle.scenario.specs.Canonical.{canonical_text};
ghost use Rattle.scenario_reader.specs.Reading.{scenario_of};
ghost use Rattle.scenario_reader.specs.Tables.{mapped};

/// An area that is named before a crossing is printed behind it, and the rest of a crossing as its
/// last flow. What is printed is printed again when it is read.
pub fn area_before_crossing()
    ensures printed { mapped canonical_text (scenario_of (codes "fleet 2\ncell b\ncell a\narea yard a b\ncrossing x a b\nflow x b\nlink a b 7\nrobot r1 b\nmission r1\nvisit yard\ndone\nend\n"))
        ≡ Ok (codes "fleet 2\ncell b\ncell a\ncrossing x b a\nflow x b\nflow x a\narea yard b a\nlink a b 7\nrobot r1 b\nmission r1\nvisit yard\ndone\nend\n") }
    ensures again { mapped canonical_text (scenario_of (codes "fleet 2\ncell b\ncell a\ncrossing x b a\nflow x b\nflow x a\narea yard b a\nlink a b 7\nrobot r1 b\nmission r1\nvisit yard\ndone\nend\n"))
        ≡ Ok (codes "fleet 2\ncell b\ncell a\ncrossing x b a\nflow x b\nflow x a\narea yard b a\nlink a b 7\nrobot r1 b\nmission r1\nvisit yard\ndone\nend\n") }
{}
