//! Laws of replays.
//!
//! A law is the contract of a function with an empty body.

ghost use Rattle.std.specs.Prelude.{◌≡◌, ℕ, List, Ok};
ghost use Rattle.run_base.specs.Openings.{reached_text};
ghost use Rattle.fleet_replay.specs.Printed.{IsPrintedRun};
ghost use Rattle.fleet_replay.specs.Replay.{replay_text};

/// A printed run behind its scenario is taken whole: its state is what is printed.
pub fn printed_run_is_taken()
    ensures { (input : List ℕ) (run : IsPrintedRun input) → replay_text input ≡ Ok (reached_text run.front.scenario run.entries) }
{}
