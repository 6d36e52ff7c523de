//! Laws of printed scenarios. Each is the contract of a function with an empty body.

ghost use Rattle.std.specs.Prelude.{◌≡◌, ℕ, List, ◌++◌, length, Ok};
ghost use Rattle.fleet_names.specs.Names.{AreDeclared};
ghost use Rattle.scenario.specs.Canonical.{canonical_text};
ghost use Rattle.scenario.specs.Scenarios.{IsScenario, ScenarioValue};
ghost use Rattle.scenario_reader.specs.Reading.{FrontValue, front_of, scenario_of};
ghost use Rattle.scenario_laws.specs.Same.{IsSame};
ghost use Rattle.site_lines.specs.Lines.{lines_of};
ghost use Rattle.site_map.specs.Valid.{IsValidSite};

/// The printed text of a scenario is read again, and declares the same scenario.
pub fn printed_scenarios_read_back()
    ensures { (s : ScenarioValue) → IsScenario s → AreDeclared s.names → IsValidSite s.site → (again : ScenarioValue) × (scenario_of (canonical_text s) ≡ Ok again) × IsSame s again }
{}

/// A text that begins with a printed scenario is read up to its last line, whatever stands behind
/// it: what was read is the same scenario, with just the printed bytes and lines.
pub fn printed_scenarios_read_back_in_front()
    ensures { (s : ScenarioValue) (tail : List ℕ) → IsScenario s → AreDeclared s.names → IsValidSite s.site
        → (front : FrontValue) × (front_of (canonical_text s ++ tail) ≡ Ok front) × IsSame s front.scenario × (front.used ≡ length (canonical_text s)) × (front.lines ≡ length (lines_of (canonical_text s))) }
{}

/// Scenarios that are the same are printed alike, in whatever order their names stand.
pub fn same_scenarios_print_alike()
    ensures { (s t : ScenarioValue) → IsSame s t → canonical_text t ≡ canonical_text s }
{}

/// What any accepted text declares, its printed text declares again.
pub fn accepted_texts_read_back()
    ensures { (text : List ℕ) (s : ScenarioValue) → scenario_of text ≡ Ok s → (again : ScenarioValue) × (scenario_of (canonical_text s) ≡ Ok again) × IsSame s again }
{}
