//! Small runs, with all that they give by the definitions.
//!
//! The name of a function says what its clauses show. They are proved by computing, so a definition
//! that gives something else fails here.

ghost use Rattle.std.specs.Prelude.{◌≡◌, true, false, None, Some, Ok, Err, [], ◌∷◌, ◌++◌};
ghost use Rattle.fleet_model.specs.Lists.{least};
ghost use Rattle.fleet_model.specs.Sites.{in_conflict};
ghost use Rattle.fleet_model.specs.Plans.{unfinished, removable_tail};
ghost use Rattle.fleet_model.specs.Cycles.{cycle_through};
ghost use Rattle.fleet_model.specs.Deferral.{ends, block_precedes};
ghost use Rattle.fleet_model.specs.States.{start_state, owed, cycle_of};
ghost use Rattle.fleet_model.specs.Calls.{answers, entries_of, after_calls, Proposes, Retries, Cancels, Withdraws, Replans, Reports, Looks};
ghost use Rattle.fleet_model.specs.Journals.{turn_at};
ghost use Rattle.fleet_model.specs.Segments.{checkpoint_state, marks};
ghost use Rattle.fleet_model.specs.Examples.{a, b, c, d, e, r1, r2, r3, cell, cells, claim, claims, event, mark, robot, block, junction, bypass, closed_bypass, tunnel, inside, square, fleet_on, route_past, relates};
ghost use Rattle.fleet_model.specs.Examples.{proposes, retries, cancels, withdraws, replans, reports, reports_all, looks};
ghost use Rattle.fleet_model.specs.Examples.{merged_as, deferred_by, retried_as, still_deferred, canceled, withdrawn_to, replanned_as, reported, reported_times, too_early};
ghost use Rattle.fleet_model.specs.Examples.{acquires, moves, releases, entry, places, holds, waits};
ghost use Rattle.fleet_model.specs.Examples.{two_at_junction, both_by_b, b_taken_over, there_and_back, twice_through_b, b_leaving, there_and_home, at_checkpoint, three_at_bypass, face_to_face, no_way_out, past_each_other, by_the_detour, one_at_junction, home_again, step_begun};
ghost use Rattle.fleet_model.specs.Yard as yard;
ghost use Rattle.fleet_model.specs.Tracks as tracks;

use fleet_base::answers::{
    CancelRefused, EventLook, PendingLook, ProposeRefused, ReplanRefused, ReportRefused,
    RetryRefused, WithdrawRefused,
};
use fleet_base::entries::Act;
use fleet_base::numbers::Kind;

/// A robot reports its events in their order: any other number is refused, and the next one named.
pub fn events_are_reported_in_turn()
    ensures answers { answers one_at_junction (proposes r1 (a ∷ b ∷ []) ∷ reports r1 2 ∷ reports_all r1 1 3 ++ reports r1 3 ∷ [])
        ≡ merged_as 1 3 ∷ Reports (Err (ReportRefused.NotNext (Some (event 1)))) ∷ reported_times 3
        ++ Reports (Err (ReportRefused.NotNext None)) ∷ [] }
    ensures entries { entries_of one_at_junction (proposes r1 (a ∷ b ∷ []) ∷ reports r1 2 ∷ reports_all r1 1 3 ++ reports r1 3 ∷ [])
        ≡ entry r1 (Act.Merged (cells (a ∷ b ∷ [])) (event 1))
        ∷ entry r1 (Act.Reported (event 1)) ∷ entry r1 (Act.Reported (event 2)) ∷ entry r1 (Act.Reported (event 3)) ∷ [] }
    ensures places { places (after_calls one_at_junction (proposes r1 (a ∷ b ∷ []) ∷ reports_all r1 1 3)) ≡ cells (b ∷ []) }
    ensures holds { holds (after_calls one_at_junction (proposes r1 (a ∷ b ∷ []) ∷ reports_all r1 1 3)) r1 ≡ claims (b ∷ []) }
{}

/// A robot whose route leads through a cell behind another robot's waits until that one has released
/// the cell.
pub fn second_robot_waits()
    ensures answers { answers two_at_junction (both_by_b ++ reports r2 7 ∷ []) ≡ merged_as 1 6 ∷ merged_as 7 9 ∷ too_early 6 ∷ [] }
    ensures plan { (after_calls two_at_junction both_by_b).fleet.plan
        ≡ acquires 1 r1 b ∷ moves 2 r1 a b ∷ releases 3 r1 a ∷ acquires 4 r1 c ∷ moves 5 r1 b c ∷ releases 6 r1 b
        ∷ acquires 7 r2 b ∷ moves 8 r2 d b ∷ releases 9 r2 d ∷ [] }
    ensures waits { waits (after_calls two_at_junction both_by_b) ≡ (7, 6) ∷ [] }
{}

/// Once the cell is released, the robot that waited acquires it. It is then still in the cell where
/// it was, and holds both.
pub fn second_robot_takes_over()
    ensures answers { answers two_at_junction b_taken_over ≡ merged_as 1 6 ∷ merged_as 7 9 ∷ reported_times 7 }
    ensures entries { entries_of two_at_junction b_taken_over
        ≡ entry r1 (Act.Merged (cells (a ∷ b ∷ c ∷ [])) (event 1)) ∷ entry r2 (Act.Merged (cells (d ∷ b ∷ [])) (event 7))
        ∷ entry r1 (Act.Reported (event 1)) ∷ entry r1 (Act.Reported (event 2)) ∷ entry r1 (Act.Reported (event 3))
        ∷ entry r1 (Act.Reported (event 4)) ∷ entry r1 (Act.Reported (event 5)) ∷ entry r1 (Act.Reported (event 6))
        ∷ entry r2 (Act.Reported (event 7)) ∷ [] }
    ensures left_before { unfinished (after_calls two_at_junction (both_by_b ++ reports_all r1 1 6)).fleet
        ≡ acquires 7 r2 b ∷ moves 8 r2 d b ∷ releases 9 r2 d ∷ [] }
    ensures left { unfinished (after_calls two_at_junction b_taken_over).fleet ≡ moves 8 r2 d b ∷ releases 9 r2 d ∷ [] }
    ensures count { (after_calls two_at_junction b_taken_over).count ≡ 9 }
    ensures next { (after_calls two_at_junction b_taken_over).fleet.next ≡ 10 }
    ensures places { places (after_calls two_at_junction b_taken_over) ≡ cells (c ∷ d ∷ []) }
    ensures ends { ends (after_calls two_at_junction b_taken_over).fleet ≡ cells (c ∷ b ∷ []) }
    ensures r1_holds { holds (after_calls two_at_junction b_taken_over) r1 ≡ claims (c ∷ []) }
    ensures r2_holds { holds (after_calls two_at_junction b_taken_over) r2 ≡ claims (b ∷ d ∷ []) }
{}

/// A robot that proposes after the other has released the cell waits for none.
pub fn later_robot_waits_for_none()
    ensures { answers two_at_junction (proposes r1 (a ∷ b ∷ c ∷ []) ∷ reports_all r1 1 6 ++ proposes r2 (d ∷ b ∷ []) ∷ looks r2 ∷ [])
        ≡ merged_as 1 6 ∷ reported_times 6 ++ merged_as 7 9
        ∷ Looks (Ok (record { at = cell d; end = cell b; left = 3; event = EventLook.Ready (event 7) (Kind.Acquire (claim b)); pending = PendingLook.Nothing }))
        ∷ [] }
{}

/// Of several releases that an event waits for, the last is named.
pub fn last_release_is_named()
    ensures answers { answers (fleet_on junction (a ∷ c ∷ [])) (twice_through_b ++ reports r2 13 ∷ reports_all r1 1 6 ++ reports r2 13 ∷ [])
        ≡ merged_as 1 6 ∷ merged_as 7 12 ∷ merged_as 13 15 ∷ too_early 12 ∷ reported_times 6 ++ too_early 12 ∷ [] }
    ensures waits { waits (after_calls (fleet_on junction (a ∷ c ∷ [])) twice_through_b) ≡ (13, 6) ∷ (13, 12) ∷ [] }
    ensures waits_less { waits (after_calls (fleet_on junction (a ∷ c ∷ [])) (twice_through_b ++ reports_all r1 1 6)) ≡ (13, 12) ∷ [] }
{}

/// A look shows the next event with what it waits for, and the pending route with its blocker.
pub fn look_shows_what_is_next()
    ensures event_waits { answers (after_calls two_at_junction both_by_b) (looks r2 ∷ [])
        ≡ Looks (Ok (record { at = cell d; end = cell b; left = 3; event = EventLook.Waits (event 7) (event 6); pending = PendingLook.Nothing })) ∷ [] }
    ensures route_is_blocked { answers (after_calls three_at_bypass face_to_face) (looks r1 ∷ [])
        ≡ Looks (Ok (record { at = cell a; end = cell a; left = 0; event = EventLook.Nothing; pending = PendingLook.Blocked (block b r2 (r1 ∷ r2 ∷ [])) })) ∷ [] }
    ensures route_is_free { answers (fleet_on junction (a ∷ b ∷ [])) (proposes r1 (a ∷ b ∷ []) ∷ proposes r2 (b ∷ c ∷ []) ∷ looks r1 ∷ [])
        ≡ deferred_by b r2 [] ∷ merged_as 1 3
        ∷ Looks (Ok (record { at = cell a; end = cell a; left = 0; event = EventLook.Nothing; pending = PendingLook.Free })) ∷ [] }
{}

/// A route to another robot's end is deferred, and merged by a retry once that end is elsewhere.
pub fn deferred_route_is_retried()
    ensures answers { answers (fleet_on junction (a ∷ c ∷ [])) there_and_back
        ≡ merged_as 1 3 ∷ deferred_by b r1 [] ∷ merged_as 4 6 ∷ retried_as 7 9 ∷ [] }
    ensures entries { entries_of (fleet_on junction (a ∷ c ∷ [])) there_and_back
        ≡ entry r1 (Act.Merged (cells (a ∷ b ∷ [])) (event 1)) ∷ entry r2 (Act.Deferred (cells (c ∷ b ∷ [])) [])
        ∷ entry r1 (Act.Merged (cells (b ∷ a ∷ [])) (event 4)) ∷ entry r2 (Act.Retried (event 7)) ∷ [] }
    ensures waits { waits (after_calls (fleet_on junction (a ∷ c ∷ [])) there_and_back) ≡ (7, 6) ∷ [] }
{}

/// The blocker of least claim is named, and of these the one of least robot.
pub fn least_blocker_is_named()
    ensures answers { answers (fleet_on bypass (d ∷ c ∷ b ∷ [])) (proposes r1 (d ∷ c ∷ b ∷ []) ∷ []) ≡ deferred_by b r3 [] ∷ [] }
    ensures same_claim { least block_precedes ((claim b, r3) ∷ (claim b, r2) ∷ []) ≡ Some (claim b, r2) }
{}

/// Two robots whose routes lead to each other's cells are deferred on each other, and the second
/// answer names the cycle. A robot that isn't on it goes on.
pub fn second_deferral_closes_cycle()
    ensures answers { answers three_at_bypass face_to_face
        ≡ deferred_by b r2 [] ∷ deferred_by a r1 (r2 ∷ r1 ∷ []) ∷ merged_as 1 3 ∷ reported_times 3 }
    ensures entries { entries_of three_at_bypass face_to_face
        ≡ entry r1 (Act.Deferred (cells (a ∷ b ∷ [])) []) ∷ entry r2 (Act.Deferred (cells (b ∷ a ∷ [])) (robot r2 ∷ robot r1 ∷ []))
        ∷ entry r3 (Act.Merged (cells (d ∷ c ∷ [])) (event 1))
        ∷ entry r3 (Act.Reported (event 1)) ∷ entry r3 (Act.Reported (event 2)) ∷ entry r3 (Act.Reported (event 3)) ∷ [] }
    ensures r1_cycle { cycle_of (after_calls three_at_bypass face_to_face) r1 ≡ r1 ∷ r2 ∷ [] }
    ensures r2_cycle { cycle_of (after_calls three_at_bypass face_to_face) r2 ≡ r2 ∷ r1 ∷ [] }
    ensures r3_cycle { cycle_of (after_calls three_at_bypass face_to_face) r3 ≡ [] }
{}

/// Three robots whose routes lead to each other's cells in turn are a cycle too, which is told from
/// each of them on.
pub fn three_deferrals_close_cycle()
    ensures answers { answers (fleet_on bypass (b ∷ c ∷ d ∷ [])) (proposes r1 (b ∷ c ∷ []) ∷ proposes r2 (c ∷ d ∷ []) ∷ proposes r3 (d ∷ e ∷ b ∷ []) ∷ retries r2 ∷ [])
        ≡ deferred_by c r2 [] ∷ deferred_by d r3 [] ∷ deferred_by b r1 (r3 ∷ r1 ∷ r2 ∷ []) ∷ still_deferred d r3 (r2 ∷ r3 ∷ r1 ∷ []) ∷ [] }
{}

/// A robot whose route comes back to its own end isn't deferred on itself.
pub fn nobody_is_deferred_on_itself()
    ensures { answers (fleet_on junction (a ∷ c ∷ [])) (proposes r1 (a ∷ b ∷ a ∷ b ∷ c ∷ []) ∷ []) ≡ deferred_by c r2 [] ∷ [] }
{}

/// Of several cycles through a robot the shortest is named, and of these the least.
pub fn shortest_cycle_is_named()
    ensures shortest { cycle_through 4 (relates ((0, 1) ∷ (1, 2) ∷ (2, 0) ∷ (0, 3) ∷ (3, 0) ∷ [])) 0 ≡ 0 ∷ 3 ∷ [] }
    ensures least { cycle_through 4 (relates ((0, 3) ∷ (3, 0) ∷ (0, 2) ∷ (2, 0) ∷ (1, 2) ∷ [])) 0 ≡ 0 ∷ 2 ∷ [] }
    ensures none { cycle_through 4 (relates ((0, 1) ∷ (1, 2) ∷ (2, 1) ∷ [])) 0 ≡ [] }
{}

/// While a cycle stands, a retry by a robot on it is refused with the cycle from that robot on. Once
/// one of them cancels, the other is deferred without a cycle.
pub fn cancel_ends_cycle()
    ensures standing { answers (after_calls three_at_bypass face_to_face) no_way_out
        ≡ still_deferred b r2 (r1 ∷ r2 ∷ []) ∷ still_deferred a r1 (r2 ∷ r1 ∷ [])
        ∷ Proposes (Err ProposeRefused.HasPending) ∷ Cancels (Err CancelRefused.NoPending) ∷ [] }
    ensures ended { answers (after_calls three_at_bypass (face_to_face ++ no_way_out)) (cancels r1 ∷ retries r2 ∷ [])
        ≡ canceled ∷ still_deferred a r1 [] ∷ [] }
    ensures entries { entries_of (after_calls three_at_bypass face_to_face) (no_way_out ++ cancels r1 ∷ retries r2 ∷ []) ≡ entry r1 Act.Canceled ∷ [] }
{}

/// A robot on a cycle replans to a detour, and the other one's route is then merged behind it. A
/// replan to the robot's own end is refused.
pub fn detour_ends_cycle()
    ensures answers { answers (fleet_on bypass (b ∷ c ∷ [])) by_the_detour
        ≡ deferred_by c r2 [] ∷ deferred_by b r1 (r2 ∷ r1 ∷ []) ∷ Replans (Err ReplanRefused.AtGoal)
        ∷ replanned_as 1 6 ∷ retried_as 7 12 ∷ [] }
    ensures entries { entries_of (fleet_on bypass (b ∷ c ∷ [])) by_the_detour
        ≡ entry r1 (Act.Deferred (cells (b ∷ c ∷ d ∷ [])) [])
        ∷ entry r2 (Act.Deferred (cells (c ∷ b ∷ a ∷ [])) (robot r2 ∷ robot r1 ∷ []))
        ∷ entry r1 (Act.Replanned (cells (b ∷ e ∷ d ∷ [])) (event 1)) ∷ entry r2 (Act.Retried (event 7)) ∷ [] }
    ensures waits { waits (after_calls (fleet_on bypass (b ∷ c ∷ [])) by_the_detour) ≡ (7, 3) ∷ [] }
{}

/// A replan is for a pending route, and leads on from the robot's end, also where the robot isn't
/// there yet.
pub fn replan_begins_at_end()
    ensures { answers (fleet_on junction (a ∷ c ∷ [])) (proposes r1 (a ∷ b ∷ []) ∷ replans r1 d ∷ proposes r1 (b ∷ c ∷ []) ∷ replans r1 b ∷ replans r1 d ∷ [])
        ≡ merged_as 1 3 ∷ Replans (Err ReplanRefused.NoPending) ∷ deferred_by c r2 []
        ∷ Replans (Err ReplanRefused.AtGoal) ∷ replanned_as 4 6 ∷ [] }
{}

/// Where no walk leads past the other robots' ends, a replan is refused.
pub fn closed_bypass_has_no_detour()
    ensures { answers (fleet_on closed_bypass (b ∷ c ∷ [])) (past_each_other ++ replans r1 d ∷ [])
        ≡ deferred_by c r2 [] ∷ deferred_by b r1 (r2 ∷ r1 ∷ []) ∷ Replans (Err ReplanRefused.NoDetour) ∷ [] }
{}

/// The least route is the cheapest, and of these the least list of cells. It may be the start alone.
pub fn cheapest_route_is_least()
    ensures cheapest { route_past [] bypass a d ≡ Some (cells (a ∷ b ∷ c ∷ d ∷ [])) }
    ensures least { route_past [] square a d ≡ Some (cells (a ∷ b ∷ d ∷ [])) }
    ensures past_b { route_past (b ∷ []) square a d ≡ Some (cells (a ∷ c ∷ d ∷ [])) }
    ensures past_both { route_past (b ∷ c ∷ []) square a d ≡ Some (cells (a ∷ d ∷ [])) }
    ensures past_start { route_past (a ∷ []) square a d ≡ None }
    ensures back { route_past [] square d a ≡ None }
    ensures start { route_past [] square a a ≡ Some (cells (a ∷ [])) }
{}

/// Two robots are in different cells of a crossing one after the other: the second acquires its cell,
/// and waits for the crossing until the first has released it.
pub fn crossing_is_for_one_robot()
    ensures answers { answers (yard.two_in yard.site) (yard.both_through ++ reports r2 9 ∷ reports r2 10 ∷ reports_all r1 1 8 ++ reports r2 10 ∷ [])
        ≡ merged_as 1 8 ∷ merged_as 9 16 ∷ reported ∷ too_early 8 ∷ reported_times 8 ++ reported ∷ [] }
    ensures plan { (after_calls (yard.two_in yard.site) (proposes r1 (yard.a ∷ yard.p ∷ yard.b ∷ []) ∷ [])).fleet.plan
        ≡ acquires 1 r1 yard.p ∷ acquires 2 r1 yard.x ∷ moves 3 r1 yard.a yard.p ∷ releases 4 r1 yard.a
        ∷ acquires 5 r1 yard.b ∷ moves 6 r1 yard.p yard.b ∷ releases 7 r1 yard.p ∷ releases 8 r1 yard.x ∷ [] }
    ensures waits { waits (after_calls (yard.two_in yard.site) yard.both_through) ≡ (10, 8) ∷ [] }
{}

/// A step from cell to cell inside a crossing neither acquires nor releases the crossing.
pub fn crossing_is_kept_inside()
    ensures { (after_calls (fleet_on tunnel (a ∷ [])) (proposes r1 (a ∷ b ∷ c ∷ d ∷ []) ∷ [])).fleet.plan
        ≡ acquires 1 r1 b ∷ acquires 2 r1 inside ∷ moves 3 r1 a b ∷ releases 4 r1 a
        ∷ acquires 5 r1 c ∷ moves 6 r1 b c ∷ releases 7 r1 b
        ∷ acquires 8 r1 d ∷ moves 9 r1 c d ∷ releases 10 r1 c ∷ releases 11 r1 inside ∷ [] }
{}

/// A crossing of two flows: a robot of one flow waits for one of the other.
pub fn flows_keep_each_other_out()
    ensures other { in_conflict yard.with_two_flows.groups (claim yard.x) (claim yard.y) ≡ true }
    ensures same { in_conflict yard.with_two_flows.groups (claim yard.x) (claim yard.x) ≡ false }
    ensures answers { answers (yard.two_in yard.with_two_flows) (yard.both_through ++ reports r2 9 ∷ reports r2 10 ∷ []) ≡ merged_as 1 8 ∷ merged_as 9 16 ∷ reported ∷ too_early 8 ∷ [] }
    ensures waits { waits (after_calls (yard.two_in yard.with_two_flows) yard.both_through) ≡ (10, 8) ∷ [] }
{}

/// A crossing of one flow: two robots of that flow are in it at once.
pub fn one_flow_takes_two_robots()
    ensures same { in_conflict yard.with_one_flow.groups (claim yard.x) (claim yard.x) ≡ false }
    ensures waits { waits (after_calls (yard.two_in yard.with_one_flow) yard.both_through) ≡ [] }
    ensures answers { answers (yard.two_in yard.with_one_flow) yard.both_inside ≡ merged_as 1 8 ∷ merged_as 9 16 ∷ reported_times 6 }
    ensures places { places (after_calls (yard.two_in yard.with_one_flow) yard.both_inside) ≡ cells (yard.p ∷ yard.q ∷ []) }
    ensures r1_holds { holds (after_calls (yard.two_in yard.with_one_flow) yard.both_inside) r1 ≡ claims (yard.a ∷ yard.p ∷ yard.x ∷ []) }
    ensures r2_holds { holds (after_calls (yard.two_in yard.with_one_flow) yard.both_inside) r2 ≡ claims (yard.c ∷ yard.q ∷ yard.x ∷ []) }
{}

/// A crossing of a flow and a rest: robots of the flow don't wait for each other, and a robot of the
/// rest waits for each of them.
pub fn rest_waits_for_flow()
    ensures flow { in_conflict tracks.site.groups (claim tracks.flow) (claim tracks.flow) ≡ false }
    ensures rest { in_conflict tracks.site.groups (claim tracks.flow) (claim tracks.rest) ≡ true }
    ensures waits { waits (after_calls tracks.three_in tracks.all_through) ≡ (18, 8) ∷ (18, 16) ∷ [] }
    ensures early { answers tracks.three_in (tracks.all_through ++ reports r3 17 ∷ reports r3 18 ∷ [])
        ≡ merged_as 1 8 ∷ merged_as 9 16 ∷ merged_as 17 24 ∷ reported ∷ too_early 16 ∷ [] }
    ensures answers { answers tracks.three_in (tracks.all_through ++ reports r3 17 ∷ reports_all r2 9 16 ++ reports r3 18 ∷ reports_all r1 1 8 ++ reports r3 18 ∷ [])
        ≡ merged_as 1 8 ∷ merged_as 9 16 ∷ merged_as 17 24 ∷ reported ∷ reported_times 8 ++ too_early 8 ∷ reported_times 8 ++ reported ∷ [] }
{}

/// Events that another robot's event stands behind can't be withdrawn.
pub fn awaited_route_stays()
    ensures tail { removable_tail (after_calls two_at_junction both_by_b).fleet r1 ≡ [] }
    ensures answers { answers two_at_junction (both_by_b ++ withdraws r1 ∷ []) ≡ merged_as 1 6 ∷ merged_as 7 9 ∷ Withdraws (Err WithdrawRefused.Nothing) ∷ [] }
    ensures waits { waits (after_calls two_at_junction (both_by_b ++ withdraws r1 ∷ [])) ≡ (7, 6) ∷ [] }
{}

/// A route that isn't begun and that no other robot stands behind is withdrawn whole. Its numbers
/// aren't given again.
pub fn free_route_is_withdrawn()
    ensures answers { answers two_at_junction (proposes r1 (a ∷ b ∷ c ∷ []) ∷ withdraws r1 ∷ proposes r1 (a ∷ b ∷ []) ∷ [])
        ≡ merged_as 1 6 ∷ withdrawn_to 6 a ∷ merged_as 7 9 ∷ [] }
    ensures plan { (after_calls two_at_junction (proposes r1 (a ∷ b ∷ c ∷ []) ∷ withdraws r1 ∷ [])).fleet.plan ≡ [] }
    ensures ends { ends (after_calls two_at_junction (proposes r1 (a ∷ b ∷ c ∷ []) ∷ withdraws r1 ∷ [])).fleet ≡ cells (a ∷ d ∷ []) }
{}

/// A withdrawal drops the pending route too.
pub fn withdrawal_drops_pending_route()
    ensures { answers (fleet_on junction (a ∷ c ∷ [])) (proposes r1 (a ∷ b ∷ []) ∷ proposes r1 (b ∷ c ∷ []) ∷ withdraws r1 ∷ retries r1 ∷ [])
        ≡ merged_as 1 3 ∷ deferred_by c r2 [] ∷ withdrawn_to 3 a ∷ Retries (Err RetryRefused.NoPending) ∷ [] }
{}

/// A withdrawal takes back what comes behind the step that is begun. The next route begins where
/// that step leads, with the next number.
pub fn begun_step_stays()
    ensures answers { answers one_at_junction (step_begun ++ proposes r1 (b ∷ d ∷ []) ∷ [])
        ≡ merged_as 1 6 ∷ reported ∷ withdrawn_to 3 b ∷ merged_as 7 9 ∷ [] }
    ensures entries { entries_of one_at_junction step_begun
        ≡ entry r1 (Act.Merged (cells (a ∷ b ∷ c ∷ [])) (event 1)) ∷ entry r1 (Act.Reported (event 1)) ∷ entry r1 (Act.Withdrawn 3 (cell b)) ∷ [] }
    ensures plan { (after_calls one_at_junction step_begun).fleet.plan ≡ acquires 1 r1 b ∷ moves 2 r1 a b ∷ releases 3 r1 a ∷ [] }
    ensures left { unfinished (after_calls one_at_junction step_begun).fleet ≡ moves 2 r1 a b ∷ releases 3 r1 a ∷ [] }
    ensures next { (after_calls one_at_junction step_begun).fleet.next ≡ 7 }
{}

/// A route has two cells at least, all of the site, goes along links and begins at the robot's end.
/// It may come back to a cell, and a robot never waits for itself.
pub fn route_is_checked()
    ensures answers { answers one_at_junction (proposes r1 (a ∷ []) ∷ proposes r1 (a ∷ c ∷ []) ∷ proposes r1 (b ∷ c ∷ []) ∷ proposes r1 (a ∷ b ∷ a ∷ []) ∷ [])
        ≡ Proposes (Err ProposeRefused.Short) ∷ Proposes (Err (ProposeRefused.NoLink 1)) ∷ Proposes (Err (ProposeRefused.BadStart (cell a))) ∷ merged_as 1 6 ∷ [] }
    ensures first_cause { answers one_at_junction (proposes r1 (e ∷ []) ∷ proposes r1 (c ∷ e ∷ []) ∷ proposes r1 (c ∷ a ∷ []) ∷ [])
        ≡ Proposes (Err ProposeRefused.Short) ∷ Proposes (Err (ProposeRefused.UnknownCell 1)) ∷ Proposes (Err (ProposeRefused.NoLink 1)) ∷ [] }
    ensures waits { waits (after_calls one_at_junction (proposes r1 (a ∷ b ∷ a ∷ []) ∷ [])) ≡ [] }
{}

/// A cap of 4 has room for a merge of three events: one entry and three that are owed. Their reports
/// need no more.
pub fn four_is_room_for_a_step()
    ensures answers { answers (start_state junction (cells (a ∷ [])) 4) (proposes r1 (a ∷ b ∷ []) ∷ reports_all r1 1 3)
        ≡ merged_as 1 3 ∷ reported_times 3 }
    ensures owed { owed (after_calls (start_state junction (cells (a ∷ [])) 4) (proposes r1 (a ∷ b ∷ []) ∷ [])) ≡ 3 }
{}

/// A cap of 3 has no room for it. The proposal is refused, and the state stays as it was.
pub fn three_is_no_room_for_a_step()
    ensures answers { answers (start_state junction (cells (a ∷ [])) 3) (proposes r1 (a ∷ b ∷ []) ∷ []) ≡ Proposes (Err ProposeRefused.Full) ∷ [] }
    ensures state { after_calls (start_state junction (cells (a ∷ [])) 3) (proposes r1 (a ∷ b ∷ []) ∷ []) ≡ start_state junction (cells (a ∷ [])) 3 }
{}

/// A deferral needs room for an entry and for the pending route. A retry and a replan need it for the
/// events that they merge.
pub fn deferral_needs_room_for_two()
    ensures one { answers (start_state junction (cells (a ∷ b ∷ [])) 1) (proposes r1 (a ∷ b ∷ []) ∷ []) ≡ Proposes (Err ProposeRefused.Full) ∷ [] }
    ensures two { answers (start_state junction (cells (a ∷ b ∷ [])) 2) (proposes r1 (a ∷ b ∷ []) ∷ cancels r1 ∷ []) ≡ deferred_by b r2 [] ∷ canceled ∷ [] }
    ensures retry_full { answers (start_state junction (cells (a ∷ b ∷ [])) 8) (b_leaving ++ retries r1 ∷ [])
        ≡ deferred_by b r2 [] ∷ merged_as 1 3 ∷ Retries (Err RetryRefused.Full) ∷ [] }
    ensures retry { answers (start_state junction (cells (a ∷ b ∷ [])) 9) (b_leaving ++ retries r1 ∷ []) ≡ deferred_by b r2 [] ∷ merged_as 1 3 ∷ retried_as 4 6 ∷ [] }
    ensures replan_full { answers (start_state bypass (cells (b ∷ c ∷ [])) 7) (past_each_other ++ replans r1 d ∷ [])
        ≡ deferred_by c r2 [] ∷ deferred_by b r1 (r2 ∷ r1 ∷ []) ∷ Replans (Err ReplanRefused.Full) ∷ [] }
    ensures replan { answers (start_state bypass (cells (b ∷ c ∷ [])) 8) (past_each_other ++ replans r1 d ∷ [])
        ≡ deferred_by c r2 [] ∷ deferred_by b r1 (r2 ∷ r1 ∷ []) ∷ replanned_as 1 6 ∷ [] }
{}

/// Where no event is unfinished, a call that finds no room in the segment opens a new one, if there is
/// room for it there. While an event is unfinished, it is refused.
pub fn segments_open()
    ensures answers { answers (start_state junction (cells (a ∷ [])) 4) there_and_home
        ≡ merged_as 1 3 ∷ reported_times 3 ++ merged_as 4 6 ∷ reported_times 3 }
    ensures marks { marks (start_state junction (cells (a ∷ [])) 4) (entries_of (start_state junction (cells (a ∷ [])) 4) there_and_home)
        ≡ mark 0 1 ∷ mark 4 4 ∷ [] }
    ensures count { (after_calls (start_state junction (cells (a ∷ [])) 4) there_and_home).count ≡ 8 }
    ensures base { (after_calls (start_state junction (cells (a ∷ [])) 4) there_and_home).base ≡ 4 }
    ensures next { (after_calls (start_state junction (cells (a ∷ [])) 4) there_and_home).fleet.next ≡ 7 }
    ensures unfinished { answers (start_state junction (cells (a ∷ [])) 4) (proposes r1 (a ∷ b ∷ []) ∷ reports_all r1 1 2 ++ proposes r1 (b ∷ a ∷ []) ∷ [])
        ≡ merged_as 1 3 ∷ reported_times 2 ++ Proposes (Err ProposeRefused.Full) ∷ [] }
    ensures retry { answers (start_state junction (cells (a ∷ b ∷ [])) 8) (b_leaving ++ reports_all r2 1 3 ++ retries r1 ∷ [])
        ≡ deferred_by b r2 [] ∷ merged_as 1 3 ∷ reported_times 3 ++ retried_as 4 6 ∷ [] }
{}

/// A segment that is read alone begins at its checkpoint, with the number that stands there.
pub fn segments_stand_alone()
    ensures opening { checkpoint_state (after_calls (start_state junction (cells (a ∷ [])) 4) (proposes r1 (a ∷ b ∷ []) ∷ reports_all r1 1 3)) ≡ at_checkpoint }
    ensures entries { entries_of at_checkpoint (proposes r1 (b ∷ a ∷ []) ∷ []) ≡ entry r1 (Act.Merged (cells (b ∷ a ∷ [])) (event 4)) ∷ [] }
    ensures other_number { (turn_at at_checkpoint (entry r1 (Act.Merged (cells (b ∷ a ∷ [])) (event 5)))).entry
        ≡ Some (entry r1 (Act.Merged (cells (b ∷ a ∷ [])) (event 4))) }
    ensures count { (after_calls at_checkpoint (proposes r1 (b ∷ a ∷ []) ∷ [])).count ≡ 1 }
    ensures next { (after_calls at_checkpoint (proposes r1 (b ∷ a ∷ []) ∷ [])).fleet.next ≡ 7 }
    ensures plan { (after_calls at_checkpoint (proposes r1 (b ∷ a ∷ []) ∷ [])).fleet.plan ≡ acquires 4 r1 a ∷ moves 5 r1 b a ∷ releases 6 r1 b ∷ [] }
    ensures holds { holds (after_calls at_checkpoint (proposes r1 (b ∷ a ∷ []) ∷ [])) r1 ≡ claims (b ∷ []) }
{}

/// What the second segment reaches from its checkpoint is what the whole run reaches.
pub fn second_segment_reaches_the_same()
    ensures first_checkpoint { checkpoint_state (start_state junction (cells (a ∷ [])) 4) ≡ start_state junction (cells (a ∷ [])) 4 }
    ensures entries { entries_of (start_state junction (cells (a ∷ [])) 4) there_and_home
        ≡ entries_of (start_state junction (cells (a ∷ [])) 4) (proposes r1 (a ∷ b ∷ []) ∷ reports_all r1 1 3) ++ entries_of at_checkpoint home_again }
    ensures marks { marks at_checkpoint (entries_of at_checkpoint home_again) ≡ mark 0 4 ∷ [] }
    ensures next { (after_calls at_checkpoint home_again).fleet.next ≡ (after_calls (start_state junction (cells (a ∷ [])) 4) there_and_home).fleet.next }
    ensures places { places (after_calls at_checkpoint home_again) ≡ places (after_calls (start_state junction (cells (a ∷ [])) 4) there_and_home) }
    ensures ends { ends (after_calls at_checkpoint home_again).fleet ≡ ends (after_calls (start_state junction (cells (a ∷ [])) 4) there_and_home).fleet }
    ensures holds { holds (after_calls at_checkpoint home_again) r1 ≡ holds (after_calls (start_state junction (cells (a ∷ [])) 4) there_and_home) r1 }
    ensures left { unfinished (after_calls at_checkpoint home_again).fleet ≡ unfinished (after_calls (start_state junction (cells (a ∷ [])) 4) there_and_home).fleet }
    ensures pending { (after_calls at_checkpoint home_again).pending ≡ (after_calls (start_state junction (cells (a ∷ [])) 4) there_and_home).pending }
{}

/// Robots are numbered from 0, so a fleet of one robot has no second one.
pub fn second_of_one_is_unknown()
    ensures { answers one_at_junction (proposes r2 (a ∷ b ∷ []) ∷ retries r2 ∷ cancels r2 ∷ withdraws r2 ∷ replans r2 b ∷ reports r2 1 ∷ looks r2 ∷ [])
        ≡ Proposes (Err ProposeRefused.UnknownRobot) ∷ Retries (Err RetryRefused.UnknownRobot) ∷ Cancels (Err CancelRefused.UnknownRobot)
        ∷ Withdraws (Err WithdrawRefused.UnknownRobot) ∷ Replans (Err ReplanRefused.UnknownRobot) ∷ Reports (Err ReportRefused.UnknownRobot)
        ∷ Looks (Err (record {})) ∷ [] }
{}
