//! Laws of how scenarios are read. Each is the contract of a function with an empty body.

ghost use Rattle.std.specs.Prelude.{◌≡◌, ℕ, List, Some, Ok, Err};
ghost use Rattle.site_lines.specs.Lines.{lines_of};
ghost use Rattle.site_lines.specs.Readings.{least_code, IsFirstFault, IsLeastCode, Row};
ghost use Rattle.site_lines.specs.declared.fault.At.{At};
ghost use Rattle.site_lines.specs.declared.fault.Code.{Code};
ghost use Rattle.scenario.specs.Scenarios.{ScenarioValue, IsScenario};
ghost use Rattle.scenario_reader.specs.Kept.{IsReached};
ghost use Rattle.scenario_reader.specs.Reading.{done, front_done, front_of, front_step, scenario_of, step};
ghost use Rattle.scenario_reader.specs.States.{State, AtHeader};

/// A refusal names the first bad line, or the end: the lines before it are accepted, and it isn't.
pub fn refusals_name_the_first_fault()
    ensures whole { (text : List ℕ) (at : At) → scenario_of text ≡ Err at → IsFirstFault step done 1 AtHeader (lines_of text) at }
    ensures least { (rows : List Row) (code : Code) → least_code rows ≡ Some code → IsLeastCode rows code }
{}

/// What lines that are all accepted leave is what the next line needs, and a whole text that is
/// accepted declares a scenario.
pub fn accepted_texts_declare_scenarios()
    ensures line { (s t : State) (raw : List ℕ) → IsReached s → step s raw ≡ Ok t → IsReached t }
    ensures whole { (text : List ℕ) (s : ScenarioValue) → scenario_of text ≡ Ok s → IsScenario s }
{}
