//! The merge of a route.

ghost use Rattle.std.specs.Prelude.{◌≡◌, ◌+◌, ◌-◌, ◌++◌, ◌<◌, ◌^◌, length, IfOk, OnOk, OnErr};
ghost use Rattle.fleet_base.specs.declared.numbers.Kind.{Kind};
ghost use Rattle.fleet_model.specs.Lists.{In};
ghost use Rattle.fleet_model.specs.Plans.{numbered};
ghost use Rattle.event_graph.specs.Graphs.{AreApart, HasSameSetting, IsKnown, IsUnchanged};

use event_graph::graph::EventGraph;
use fleet_base::numbers::{EventNo, Kind, RobotNo, Span};
use fleet_base::path::NoMemory;

/// Appends what the robot does in a route to its events, under consecutive numbers from the next
/// number on, and answers the first and the last. Where no memory is left the graph is as before.
pub fn merge(graph: &mut EventGraph, robot: RobotNo, kinds: &[Kind]) -> Result<Span, NoMemory>
    requires some { 0 < length kinds.now }
    requires number { graph.old.next < 10 ^ 15 }
    requires few { length graph.old.events + length kinds.now < 2 ^ 32 }
    requires robot { robot.0 < graph.old.robots }
    requires known { (k : Kind) → In k kinds.now → IsKnown (length graph.old.groups) k }
    requires apart { AreApart graph.old.groups
        (graph.old.events ++ numbered graph.old.next robot.0 kinds.now) }
    ensures span { IfOk result (λ span. span ≡ record {
      first = record { 0 = graph.old.next };
      last = record { 0 = graph.old.next + length kinds.now - 1 };
    }) }
    ensures events { OnOk result (graph.new.events
        ≡ graph.old.events ++ numbered graph.old.next robot.0 kinds.now) }
    ensures next { OnOk result (graph.new.next ≡ graph.old.next + length kinds.now) }
    ensures setting { HasSameSetting graph.old graph.new }
    ensures unchanged { OnErr result (IsUnchanged graph.old graph.new) }
{
    graph.reserve(kinds)?;
    let first = graph.append(robot, kinds);
    let last = EventNo(first.0 + kinds.len() as u64 - 1);
    Ok(Span { first, last })
}
