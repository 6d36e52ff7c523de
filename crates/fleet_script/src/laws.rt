//! Laws of scripts.
//!
//! A law is the contract of a function with an empty body.

ghost use Rattle.std.specs.Prelude.{◌≡◌, ◌≤◌, ℕ, true, List, length, Ok};
ghost use Rattle.fleet_model.specs.Calls.{entries_of};
ghost use Rattle.run_base.specs.Openings.{is_one_segment, opening_of};
ghost use Rattle.fleet_script.specs.Script.{ScriptValue, calls_of, script_of};

/// The journal of a script of at most 4,194,304 bytes is one segment.
pub fn scripts_are_one_segment()
    ensures { (input : List ℕ) (script : ScriptValue) → length input ≤ 4194304 → script_of input ≡ Ok script
        → is_one_segment (opening_of script.scenario) (entries_of (opening_of script.scenario) (calls_of script)) ≡ true }
{}
