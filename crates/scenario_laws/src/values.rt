//! The laws of printed scenarios, on each scenario that a program has.

ghost use Rattle.std.specs.Prelude.{◌≡◌, ℕ, List, ◌++◌, length, Ok};
ghost use Rattle.scenario.specs.Canonical.{canonical_text};
ghost use Rattle.scenario.specs.Scenarios.{ScenarioValue};
ghost use Rattle.scenario_reader.specs.Reading.{FrontValue, front_of, scenario_of};
ghost use Rattle.scenario_laws.specs.Same.{IsSame};
ghost use Rattle.site_lines.specs.Lines.{lines_of};

use scenario::scenario::Scenario;

/// The printed text of a scenario is read again, and declares the same scenario; so it does in
/// front of any text. It does nothing: its calls tell what each scenario keeps.
pub fn scenario_reads_back(scenario: &Scenario)
    ensures whole { (again : ScenarioValue) × (scenario_of (canonical_text scenario.now) ≡ Ok again) × IsSame scenario.now again }
    ensures front { (tail : List ℕ) → (front : FrontValue) × (front_of (canonical_text scenario.now ++ tail) ≡ Ok front) × IsSame scenario.now front.scenario
        × (front.used ≡ length (canonical_text scenario.now)) × (front.lines ≡ length (lines_of (canonical_text scenario.now))) }
{
    scenario.site().cell_count();
    scenario.names().len();
    scenario.starts();
    scenario.missions();
}
