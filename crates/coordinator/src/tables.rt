//! What a state is kept in.

ghost use Rattle.std.specs.Prelude.{◌≡◌, ◌<◌, ◌≤◌, ◌+◌, ◌-◌, ◌^◌, ◌++◌, length, List, None, IfOk, OnOk, OnErr};
ghost use Rattle.fleet_base.specs.declared.numbers.Kind.{Kind};
ghost use Rattle.fleet_base.specs.Lists.{robots_of};
ghost use Rattle.fleet_base.specs.declared.numbers.ClaimNo.{ClaimNo};
ghost use Rattle.fleet_model.specs.Deferral.{least_blocker};
ghost use Rattle.fleet_model.specs.Good.{IsGood};
ghost use Rattle.fleet_model.specs.Lists.{In};
ghost use Rattle.fleet_model.specs.States.{State, cycle_of};
ghost use Rattle.fleet_base.specs.Blockers.{pair_of};
ghost use Rattle.fleet_base.specs.ClaimSets.{IsSetOf};
ghost use Rattle.coordinator.specs.Kept.{Shows};
ghost use Rattle.std.specs.Option.{is_some, option_map};
ghost use Rattle.fleet_model.specs.Sites.{footprint_of};
ghost use Rattle.fleet_model.specs.Plans.{numbered, own};
ghost use Rattle.site_map.specs.Built.{BuiltSite};
ghost use Rattle.site_map.specs.Claims.{site_of};
ghost use Rattle.event_graph.specs.Graphs.{AreApart, HasReady, IsKnown, IsUnawaited, tail_of};
ghost use Rattle.robot_tables.specs.Robots.{HasPlaceFor, holding_at, with_end};
ghost use Rattle.deferral.specs.Backlogs.{pending_of, route_of};
ghost use Rattle.deferral.specs.Laws.{ShowsEnds};
ghost use Rattle.coordinator.specs.Changes.{AreSame, IsCut, IsDeferred, IsDropped, IsReported, IsSettled, IsTold, route_count, with_end_claims};

use cycle_cert::cycle_through;
use deferral::{Deferrals, blockers_are_those_of_sites};
use event_graph::graph::EventGraph;
use fleet_base::answers::{Block, Blocker};
use fleet_base::claim_set::ClaimSet;
use fleet_base::limits::MAX_ROBOTS;
use fleet_base::numbers::{CellNo, Event, Kind, RobotNo, Span};
use fleet_base::path::{NoMemory, Path};
use merge_op::merging::merge;
use robot_tables::tables::RobotTables;
use site_map::site::Site;

// The unfinished events, what is known of each robot, the pending routes, and what is owed.
#[derive(Drop)]
pub(crate) struct Tables {
    pub(crate) graph: EventGraph,
    pub(crate) robots: RobotTables,
    pub(crate) deferrals: Deferrals,
    pub(crate) owed: u64,
}

impl Tables {
    // Whether the robot has a pending route.
    pub(crate) fn is_waiting(&self, robot: RobotNo) -> bool
        requires { robot.0 < length self.now.deferrals.pending }
        ensures { result ≡ is_some (route_of self.now.deferrals robot.0) }
    {
        self.deferrals.pending(robot).is_some()
    }

    // The least blocker of a route of the robot that needs these claims.
    pub(crate) fn blocker(&self, robot: RobotNo, needs: &ClaimSet) -> Option<Blocker>
        requires { robot.0 < length self.now.deferrals.pending }
        ensures { (site : BuiltSite) (claims : List ClaimNo) → ShowsEnds self.now.deferrals (site_of site) self.now.robots.ends
            → IsSetOf needs.now claims
            → option_map pair_of result ≡ least_blocker (site_of site) self.now.robots.ends robot.0 claims }
    {
        blockers_are_those_of_sites();
        self.deferrals.blocker(robot, needs)
    }

    // The blocker, with the cycle of deferrals through the robot.
    pub(crate) fn block(&self, robot: RobotNo, blocker: Blocker) -> Block
        requires { robot.0 < MAX_ROBOTS }
        ensures { (s : State) → Shows self.now s → IsGood s → result ≡ record {
          claim = blocker.claim;
          by = blocker.by;
          cycle = robots_of (cycle_of s robot.0);
        } }
    {
        Block {
            claim: blocker.claim,
            by: blocker.by,
            cycle: cycle_through(self.deferrals.edges(), robot),
        }
    }

    // Keeps the route, which needs these claims, as the robot's pending one.
    pub(crate) fn defer(&mut self, robot: RobotNo, route: Path, needs: ClaimSet)
        requires known { robot.0 < length self.old.deferrals.pending }
        requires free { pending_of self.old.deferrals robot.0 ≡ None }
        requires small { self.old.owed < 2 ^ 63 }
        ensures { IsDeferred self.old self.new robot.0 (record { route = route; needs = needs }) }
    {
        self.deferrals.put(robot, route, needs);
        self.owed += 1;
    }

    // The robot's route is pending no more, and is handed back where it had one.
    pub(crate) fn drop_pending(&mut self, robot: RobotNo) -> Option<Path>
        requires known { robot.0 < length self.old.deferrals.pending }
        requires owed { route_count (pending_of self.old.deferrals robot.0) ≤ self.old.owed }
        ensures dropped { IsDropped self.old self.new robot.0 }
        ensures route { result ≡ route_of self.old.deferrals robot.0 }
    {
        let route = self.deferrals.take(robot);
        if route.is_some() {
            self.owed -= 1;
        }
        route
    }

    // The event is done.
    pub(crate) fn finish(&mut self, event: Event)
        requires ready { HasReady self.old.graph.groups self.old.graph.events event.no }
        requires known { event.robot.0 < length self.old.robots.ends }
        requires place { HasPlaceFor (holding_at self.old.robots event.robot.0) event.kind }
        requires owed { 1 ≤ self.old.owed }
        ensures { IsReported self.old self.new event }
    {
        self.graph.finish(event.no);
        self.robots.report(event.robot, event.kind);
        self.owed -= 1;
    }

    // The robot is to do this, up to that cell, and has no route pending any more. Its events' numbers
    // are told, and the route that it had pending.
    pub(crate) fn settle(
        &mut self,
        site: &Site,
        robot: RobotNo,
        kinds: &[Kind],
        end: CellNo,
    ) -> Result<(Span, Option<Path>), NoMemory>
        requires robot { robot.0 < self.old.graph.robots }
        requires known { robot.0 < length self.old.deferrals.pending }
        requires ends { robot.0 < length self.old.robots.ends }
        requires end_known { robot.0 < length self.old.deferrals.ends }
        requires told { IsTold site.now self.old robot.0 }
        requires end { end.0 < site.now.cells }
        requires some { 0 < length kinds.now }
        requires number { self.old.graph.next < 10 ^ 15 }
        requires few { length self.old.graph.events + length kinds.now < 2 ^ 32 }
        requires claims { (k : Kind) → In k kinds.now → IsKnown (length self.old.graph.groups) k }
        requires apart { AreApart self.old.graph.groups
            (self.old.graph.events ++ numbered self.old.graph.next robot.0 kinds.now) }
        requires owed { route_count (pending_of self.old.deferrals robot.0) ≤ self.old.owed }
        requires small { self.old.owed < 2 ^ 63 }
        ensures span { IfOk result (λ r. r.0 ≡ record {
          first = record { 0 = self.old.graph.next };
          last = record { 0 = self.old.graph.next + length kinds.now - 1 };
        }) }
        ensures route { IfOk result (λ r. r.1 ≡ route_of self.old.deferrals robot.0) }
        ensures settled { OnOk result (IsSettled self.old self.new robot.0 kinds.now end
            (footprint_of (site_of site.now) end)) }
        ensures unchanged { OnErr result (AreSame self.old self.new) }
    {
        let span = merge(&mut self.graph, robot, kinds)?;
        self.owed += kinds.len() as u64;
        self.move_end(site, robot, end);
        Ok((span, self.drop_pending(robot)))
    }

    // The robot takes back its last events, down to that cell, and has no route pending.
    pub(crate) fn cut(&mut self, site: &Site, robot: RobotNo, count: u32, end: CellNo)
        requires robot { robot.0 < self.old.graph.robots }
        requires known { robot.0 < length self.old.deferrals.pending }
        requires ends { robot.0 < length self.old.robots.ends }
        requires end_known { robot.0 < length self.old.deferrals.ends }
        requires told { IsTold site.now self.old robot.0 }
        requires end { end.0 < site.now.cells }
        requires unfinished { count ≤ length (own robot.0 self.old.graph.events) }
        requires unawaited { IsUnawaited self.old.graph.groups self.old.graph.events
            (tail_of robot.0 count self.old.graph.events) }
        requires owed { count + route_count (pending_of self.old.deferrals robot.0) ≤ self.old.owed }
        ensures { IsCut self.old self.new robot.0 count end (footprint_of (site_of site.now) end) }
    {
        self.graph.cut_tail(robot, count);
        self.move_end(site, robot, end);
        self.owed -= u64::from(count);
        self.drop_pending(robot);
    }

    // The robot ends in that cell.
    fn move_end(&mut self, site: &Site, robot: RobotNo, end: CellNo)
        requires known { robot.0 < length self.old.robots.ends }
        requires end_known { robot.0 < length self.old.deferrals.ends }
        requires told { IsTold site.now self.old robot.0 }
        requires end { end.0 < site.now.cells }
        ensures { self.new ≡ record self.old {
          robots = with_end self.old.robots robot.0 end;
          deferrals = with_end_claims self.old.deferrals robot.0 (footprint_of (site_of site.now) end);
        } }
    {
        let old = site.footprint(self.robots.end(robot));
        let new = site.footprint(end);
        self.deferrals.end_changed(robot, &old, &new);
        self.robots.set_end(robot, end);
    }
}
