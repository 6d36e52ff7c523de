//! Small runs with missions, with all that they give by the definitions.
//!
//! The name of a function says what its clauses show. They are proved by computing, so a definition
//! that gives something else fails here.

ghost use Rattle.std.specs.Prelude.{◌≡◌, true, false, None, Some, [], ◌∷◌, ◌++◌};
ghost use Rattle.fleet_model.specs.Examples.{a, b, c, d, e, r1, r2, cell, cells, event, entry, mark, robot, fleet_on, bypass, junction};
ghost use Rattle.fleet_model.specs.Segments.{marks};
ghost use Rattle.fleet_model.specs.States.{start_state};
ghost use Rattle.fleet_base.specs.Lists.{robots_of};
ghost use Rattle.mission_model.specs.Stops.{serve_on, served, stops_of};
ghost use Rattle.mission_model.specs.Policies.{can_go_on, goes_on};
ghost use Rattle.mission_model.specs.Runs.{serial_entries};
ghost use Rattle.mission_model.specs.Outcomes.{outcomes_of, status_of};
ghost use Rattle.mission_model.specs.Examples.{broken_track, one_to_b, pair, past_each_other, reports_from, second_to_c, step_begun, stop, there_and_home, to_each_other, track, visit};

use crate::outcome::Outcome;
use fleet_base::entries::Act;

/// A robot with one leg proposes its route, reports its events and is done.
pub fn one_leg_is_driven()
    ensures entries { serial_entries one_to_b (fleet_on junction (a ∷ [])) []
        ≡ entry r1 (Act.Merged (cells (a ∷ b ∷ [])) (event 1)) ∷ reports_from r1 1 3 }
    ensures outcomes { outcomes_of one_to_b (fleet_on junction (a ∷ [])) (serial_entries one_to_b (fleet_on junction (a ∷ [])) []) ≡ Outcome.Done ∷ [] }
    ensures status { status_of (Outcome.Done ∷ []) ≡ 0 }
    ensures before { can_go_on one_to_b (fleet_on junction (a ∷ [])) [] r1 ≡ true }
    ensures after { can_go_on one_to_b (fleet_on junction (a ∷ [])) (serial_entries one_to_b (fleet_on junction (a ∷ [])) []) r1 ≡ false }
    ensures served_before { served (visit b ∷ []) (fleet_on junction (a ∷ [])) [] r1 ≡ 0 }
    ensures served_after { served (visit b ∷ []) (fleet_on junction (a ∷ [])) (serial_entries one_to_b (fleet_on junction (a ∷ [])) []) r1 ≡ 1 }
{}

/// Where there is no room for the route, nothing is done, and the robot lacks room.
pub fn no_room_is_full()
    ensures entries { serial_entries one_to_b (start_state junction (cells (a ∷ [])) 3) [] ≡ [] }
    ensures outcomes { outcomes_of one_to_b (start_state junction (cells (a ∷ [])) 3) [] ≡ Outcome.Full ∷ [] }
    ensures status { status_of (Outcome.Full ∷ []) ≡ 7 }
{}

/// A run that is longer than its cap goes on in another segment.
pub fn serial_run_opens_segments()
    ensures entries { serial_entries there_and_home (start_state junction (cells (a ∷ [])) 4) []
        ≡ entry r1 (Act.Merged (cells (a ∷ b ∷ [])) (event 1)) ∷ reports_from r1 1 3
        ++ entry r1 (Act.Merged (cells (b ∷ a ∷ [])) (event 4)) ∷ reports_from r1 4 3 }
    ensures marks { marks (start_state junction (cells (a ∷ [])) 4) (serial_entries there_and_home (start_state junction (cells (a ∷ [])) 4) []) ≡ mark 0 1 ∷ mark 4 4 ∷ [] }
    ensures outcomes { outcomes_of there_and_home (start_state junction (cells (a ∷ [])) 4) (serial_entries there_and_home (start_state junction (cells (a ∷ [])) 4) []) ≡ Outcome.Done ∷ [] }
{}

/// Two robots that are to go to each other's cells are deferred on each other, and stay.
pub fn facing_robots_stay()
    ensures entries { serial_entries to_each_other (fleet_on pair (a ∷ b ∷ [])) []
        ≡ entry r1 (Act.Deferred (cells (a ∷ b ∷ [])) []) ∷ entry r2 (Act.Deferred (cells (b ∷ a ∷ [])) (robots_of (r2 ∷ r1 ∷ []))) ∷ [] }
    ensures outcomes { outcomes_of to_each_other (fleet_on pair (a ∷ b ∷ [])) (serial_entries to_each_other (fleet_on pair (a ∷ b ∷ [])) [])
        ≡ Outcome.InCycle (robots_of (r1 ∷ r2 ∷ [])) ∷ Outcome.InCycle (robots_of (r2 ∷ r1 ∷ [])) ∷ [] }
    ensures status { status_of (Outcome.InCycle (robots_of (r1 ∷ r2 ∷ [])) ∷ Outcome.InCycle (robots_of (r2 ∷ r1 ∷ [])) ∷ []) ≡ 4 }
{}

/// A robot whose way leads through the cell of one that has nothing to do is behind it. Where no link
/// leads on, its goal is unreachable.
pub fn resting_robot_blocks()
    ensures entries { serial_entries second_to_c (fleet_on track (b ∷ a ∷ [])) [] ≡ entry r2 (Act.Deferred (cells (a ∷ b ∷ c ∷ [])) []) ∷ [] }
    ensures outcomes { outcomes_of second_to_c (fleet_on track (b ∷ a ∷ [])) (serial_entries second_to_c (fleet_on track (b ∷ a ∷ [])) [])
        ≡ Outcome.Done ∷ Outcome.Behind (robots_of (r1 ∷ [])) ∷ [] }
    ensures no_link { serial_entries second_to_c (fleet_on broken_track (b ∷ a ∷ [])) [] ≡ [] }
    ensures unreachable { outcomes_of second_to_c (fleet_on broken_track (b ∷ a ∷ [])) [] ≡ Outcome.Done ∷ Outcome.Unreachable ∷ [] }
{}

/// Of two robots that are to go past each other the first takes the detour, and the other one's
/// route is then merged behind it.
pub fn detour_lets_both_pass()
    ensures entries { serial_entries past_each_other (fleet_on bypass (b ∷ c ∷ [])) []
        ≡ entry r1 (Act.Deferred (cells (b ∷ c ∷ d ∷ [])) [])
        ∷ entry r2 (Act.Deferred (cells (c ∷ b ∷ a ∷ [])) (robots_of (r2 ∷ r1 ∷ [])))
        ∷ entry r1 (Act.Replanned (cells (b ∷ e ∷ d ∷ [])) (event 1)) ∷ reports_from r1 1 6
        ++ entry r2 (Act.Retried (event 7)) ∷ reports_from r2 7 6 }
{}

/// Legs with goals that contain the cell are served together, and a leg behind another waits for it.
pub fn legs_are_served_in_order()
    ensures equal { serve_on (visit b ∷ visit b ∷ visit a ∷ []) (cell b) 0 ≡ 2 }
    ensures later { serve_on (visit b ∷ visit a ∷ []) (cell a) 0 ≡ 0 }
    ensures all { serve_on (visit b ∷ []) (cell b) 1 ≡ 1 }
{}

/// A withdrawal takes back the stop that it leaves, and stops where the robot then ends: the leg to
/// the far cell isn't served any more, the one to the near cell is.
pub fn withdrawal_takes_stops_back()
    ensures planned { stops_of (fleet_on junction (a ∷ [])) (entry r1 (Act.Merged (cells (a ∷ b ∷ c ∷ [])) (event 1)) ∷ []) r1 ≡ stop 0 a ∷ stop 6 c ∷ [] }
    ensures withdrawn { stops_of (fleet_on junction (a ∷ [])) step_begun r1 ≡ stop 0 a ∷ stop 3 b ∷ [] }
    ensures far { served (visit c ∷ []) (fleet_on junction (a ∷ [])) step_begun r1 ≡ 0 }
    ensures near { served (visit b ∷ []) (fleet_on junction (a ∷ [])) step_begun r1 ≡ 1 }
{}
