//! Laws of the grammar. Each is the contract of a function with an empty body.

ghost use Rattle.std.specs.Prelude.{◌≡◌, ℕ, List, Ok, Err};
ghost use Rattle.site_lines.specs.declared.fault.At.{At};
ghost use Rattle.scenario.specs.Scenarios.{IsScenario, ScenarioValue};
ghost use Rattle.scenario_reader.specs.Reading.{FrontValue, front_of, scenario_of};
ghost use Rattle.scenario_grammar.specs.Grammar.{IsFront, IsText};

/// The texts that are read as scenarios are just those of the grammar, and what is read is the
/// scenario that the grammar gives, which is one for each text. The same holds of the texts that
/// begin with a scenario.
pub fn accepted_texts_are_those_of_the_grammar()
    ensures sound { (text : List ℕ) (s : ScenarioValue) → scenario_of text ≡ Ok s → IsText text s }
    ensures complete { (text : List ℕ) (s : ScenarioValue) → IsText text s → scenario_of text ≡ Ok s }
    ensures valid { (text : List ℕ) (s : ScenarioValue) → IsText text s → IsScenario s }
    ensures one { (text : List ℕ) (s t : ScenarioValue) → IsText text s → IsText text t → s ≡ t }
    ensures front_sound { (text : List ℕ) (f : FrontValue) → front_of text ≡ Ok f → IsFront text f }
    ensures front_complete { (text : List ℕ) (f : FrontValue) → IsFront text f → front_of text ≡ Ok f }
    ensures front_one { (text : List ℕ) (f g : FrontValue) → IsFront text f → IsFront text g → f ≡ g }
    ensures refused { (text : List ℕ) → ((s : ScenarioValue) → IsText text s → ⊥) → (at : At) × (scenario_of text ≡ Err at) }
{}
