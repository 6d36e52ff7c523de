//! Samples of the grammar.

ghost use Rattle.std.specs.Prelude.{codes};
ghost use Rattle.scenario_grammar.specs.Grammar.{IsFront, IsText};
ghost use Rattle.scenario_grammar.specs.Samples.{alone, crossed};

/// A text of the grammar, with each kind of line, and the scenario that it says.
pub fn a_text_of_the_grammar()
    ensures { IsText (codes "# a crossing\nfleet 2\ncell a b c\ncrossing x b a\nflow x a\narea y c a\nlink a c 3\n\nlane a b 2\nrobot r1 c\nmission r1\nrepeat 2\nvisit a\nrepeat 2\nvisit y\nagain\nagain\ndone\nend\n") crossed }
{}

/// A text that begins with a scenario, and goes on.
pub fn a_front_of_the_grammar()
    ensures { IsFront (codes "fleet 1\ncell a\nrobot r1 a\nend\nlook r1\n") (record { scenario = alone; used = 30; lines = 4 }) }
{}
