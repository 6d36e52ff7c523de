// What each task costs each robot.
ghost use Rattle.std.specs.Prelude.{◌≡◌, ◌==◌, ◌<◌, ◌≤◌, ℕ, if◌then◌else◌, length, All, IfOk, IfSome, OnOk};
ghost use Rattle.fleet_base.specs.declared.numbers.CellNo.{CellNo};
ghost use Rattle.route_plan.specs.Incoming.{AreIncoming};
ghost use Rattle.route_plan.specs.Labels.{label_at};
ghost use Rattle.site_map.specs.Claims.{site_of};
ghost use Rattle.site_map.specs.Goals.{IsGoal};
ghost use Rattle.task_assign.specs.Squares.{cost_at};
ghost use Rattle.fleet_assign.specs.Tasks.{IsSquareOf, cost_or_most, route_cost, start_of, tasks_of};

use crate::tasks::task_at;
use fleet_base::numbers::CellNo;
use fleet_base::path::NoMemory;
use route_plan::cell_set::CellSet;
use route_plan::finder::labels_to;
use route_plan::goals::goal_set;
use route_plan::incoming::Incoming;
use route_plan::route::Labels;
use scenario::scenario::Scenario;
use site_map::goal::Goal;
use site_map::site::Site;
use std::alloc::Global;
use task_assign::Costs;

// What a task costs that can't be reached. Each route costs less.
pub(crate) const MOST: u64 = 1_000_000_000_000;

// The square of what each column costs each robot. A column without a task costs nothing.
pub(crate) fn costs_of(
    alloc: Global,
    scenario: &Scenario,
    tasks: &[Goal],
) -> Result<Costs, NoMemory>
    requires tasks { tasks.now ≡ tasks_of scenario.now.missions }
    requires goals { All (IsGoal scenario.now.site) tasks.now }
    ensures { IfOk result (λ costs. IsSquareOf scenario.now costs) }
{
    let site = scenario.site();
    let starts = scenario.starts();
    let count = starts.len() as u32;
    let incoming = Incoming::of(site, alloc)?;
    let mut costs = Costs::new(count, alloc)?;
    for column in 0..count {
        if let Some(goal) = task_at(tasks, column) {
            fill(alloc, &mut costs, site, &incoming, starts, column, goal)?;
        }
    }
    Ok(costs)
}

// Makes the costs of the column those of the routes to the goal. No other column changes.
fn fill(
    alloc: Global,
    costs: &mut Costs,
    site: &Site,
    incoming: &Incoming,
    starts: &[CellNo],
    column: u32,
    goal: Goal,
) -> Result<(), NoMemory>
    requires sized { costs.old.size ≡ length starts.now }
    requires few { length starts.now ≤ 64 }
    requires column { column < length starts.now }
    requires goal { IsGoal site.now goal }
    requires incoming { AreIncoming (site_of site.now) incoming.now }
    ensures sized { costs.new.size ≡ costs.old.size }
    ensures costs { OnOk result ((i j : ℕ) → i < length starts.now → j < length starts.now → cost_at costs.new i j
        ≡ (if j == column then cost_or_most (route_cost site.now goal (start_of starts.now i)) else cost_at costs.old i j)) }
{
    let labels = labels_of(alloc, site, incoming, goal)?;
    set_column(costs, starts, column, &labels);
    Ok(())
}

// Makes the costs of the column the labels of the starts.
fn set_column(costs: &mut Costs, starts: &[CellNo], column: u32, labels: &Labels)
    requires sized { costs.old.size ≡ length starts.now }
    requires few { length starts.now ≤ 64 }
    requires column { column < length starts.now }
    requires low { (c : CellNo) → IfSome (label_at labels.now c) (λ n. n < MOST) }
    ensures sized { costs.new.size ≡ costs.old.size }
    ensures costs { (i j : ℕ) → i < length starts.now → j < length starts.now → cost_at costs.new i j
        ≡ (if j == column then cost_or_most (label_at labels.now (start_of starts.now i)) else cost_at costs.old i j) }
{
    for row in 0..starts.len() as u32 {
        let cost = cost_or_most(labels, starts[row as usize]);
        costs.set(row, column, cost);
    }
}

// The label of the cell, or 10^12 where it has none.
fn cost_or_most(labels: &Labels, cell: CellNo) -> u64
    requires low { IfSome (label_at labels.now cell) (λ n. n < MOST) }
    ensures is { result ≡ cost_or_most (label_at labels.now cell) }
    ensures bounded { result ≤ MOST }
{
    labels.label(cell).unwrap_or(MOST)
}

// What the least route from each cell to the goal costs.
fn labels_of(
    alloc: Global,
    site: &Site,
    incoming: &Incoming,
    goal: Goal,
) -> Result<Labels, NoMemory>
    requires goal { IsGoal site.now goal }
    requires incoming { AreIncoming (site_of site.now) incoming.now }
    ensures labels { IfOk result (λ labels. (c : CellNo) → label_at labels c ≡ route_cost site.now goal c) }
    ensures low { IfOk result (λ labels. (c : CellNo) → IfSome (label_at labels c) (λ n. n < MOST)) }
{
    let _count = site.cell_count(); // its clauses: the site is a valid one
    let goals = goal_set(site, goal);
    labels_to(site, incoming, &goals, &CellSet::new(), alloc)
}
