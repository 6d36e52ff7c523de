// The text of an assignment.
ghost use Rattle.std.specs.Prelude.{◌≡◌, ◌<◌, ◌++◌, ◌∷◌, [], ℕ, length, codes, All, Option, Some, IfOk, IfSome, OnOk};
ghost use Rattle.std.specs.Fmt.{decimal, signed_decimal};
ghost use Rattle.fleet_names.specs.Names.{count_of};
ghost use Rattle.fleet_names.specs.Things.{number_of, same_kind};
ghost use Rattle.fleet_texts.specs.Words.{behind, name_text};
ghost use Rattle.scenario.specs.Canonical.{each, goal_thing};
ghost use Rattle.site_map.specs.Goals.{IsGoal};
ghost use Rattle.task_assign.specs.Assignments.{column_at};
ghost use Rattle.task_assign.specs.Pairings.{IsPairing};
ghost use Rattle.fleet_assign.specs.Tasks.{IsSquareOf, cost_or_most, route_cost, start_of, task_cost, tasks_of};
ghost use Rattle.fleet_assign.specs.Texts.{IsAssigned, assign_text, column_line, job_words, line, robot_line, robot_name, row_line, task_words, total_line};

use crate::costs::{MOST, costs_of};
use crate::tasks::{task_at, tasks_of};
use fleet_base::numbers::RobotNo;
use fleet_base::path::NoMemory;
use fleet_names::names::Names;
use fleet_names::thing::Thing;
use fleet_texts::pushing::{push_number_word, push_text, push_word};
use fleet_texts::words::push_robot;
use itoa::Buffer;
use scenario::scenario::Scenario;
use site_map::goal::Goal;
use std::alloc::Global;
use task_assign::{Assignment, Costs, assign};

// The text of the assignment of a scenario.
pub(crate) fn assign_text(alloc: Global, scenario: &Scenario) -> Result<Vec<u8>, NoMemory>
    ensures { IfOk result (λ text. IsAssigned scenario.now text.items) }
{
    let tasks = tasks_of(alloc, scenario)?;
    let costs = costs_of(alloc, scenario, &tasks)?;
    let found = assign(&costs, alloc)?;
    let mut text = Vec::new(alloc);
    push_assignment(&mut text, scenario, &tasks, &costs, &found)?;
    Ok(text)
}

// Appends the lines of an assignment.
fn push_assignment(
    text: &mut Vec<u8>,
    scenario: &Scenario,
    tasks: &[Goal],
    costs: &Costs,
    found: &Assignment,
) -> Result<(), NoMemory>
    requires tasks { tasks.now ≡ tasks_of scenario.now.missions }
    requires goals { All (IsGoal scenario.now.site) tasks.now }
    requires costs { IsSquareOf scenario.now costs.now }
    requires sized { length found.now.columns ≡ length scenario.now.starts }
    requires pairing { IsPairing (length scenario.now.starts) (column_at found.now) }
    ensures { OnOk result (text.new.items ≡ text.old.items ++ assign_text scenario.now found.now) }
{
    push_total(text, found)?;
    push_robots(text, scenario, tasks, costs, found)?;
    push_rows(text, scenario, found)?;
    push_columns(text, found)
}

// Appends the line of the total.
fn push_total(text: &mut Vec<u8>, found: &Assignment) -> Result<(), NoMemory>
    ensures { OnOk result (text.new.items ≡ text.old.items ++ total_line found.now) }
{
    push_text(text, b"total")?;
    push_number_word(text, found.total())?;
    push_text(text, b"\n")
}

// Appends a line for each robot: its task and what that costs.
fn push_robots(
    text: &mut Vec<u8>,
    scenario: &Scenario,
    tasks: &[Goal],
    costs: &Costs,
    found: &Assignment,
) -> Result<(), NoMemory>
    requires tasks { tasks.now ≡ tasks_of scenario.now.missions }
    requires goals { All (IsGoal scenario.now.site) tasks.now }
    requires costs { IsSquareOf scenario.now costs.now }
    requires sized { length found.now.columns ≡ length scenario.now.starts }
    requires pairing { IsPairing (length scenario.now.starts) (column_at found.now) }
    ensures { OnOk result (text.new.items ≡ text.old.items ++ each (robot_line scenario.now found.now) (length scenario.now.starts)) }
{
    for robot in 0..found.size() {
        let column = found.column(robot);
        let task = task_at(tasks, column);
        push_job(text, scenario, robot, task, costs.get(robot, column))?;
    }
    Ok(())
}

// Appends the line of a robot with this task, which costs it so much.
fn push_job(
    text: &mut Vec<u8>,
    scenario: &Scenario,
    robot: u32,
    task: Option<Goal>,
    cost: u64,
) -> Result<(), NoMemory>
    requires known { IfSome task (IsGoal scenario.now.site) }
    requires cost { cost ≡ task_cost scenario.now.site (start_of scenario.now.starts robot) task }
    ensures { OnOk result (text.new.items ≡ text.old.items
        ++ line (codes "robot" ∷ robot_name scenario.now robot ∷ job_words scenario.now robot task)) }
{
    push_text(text, b"robot")?;
    push_robot(text, scenario.names(), RobotNo(robot))?;
    push_work(text, scenario, robot, task, cost)?;
    push_text(text, b"\n")
}

// Appends the words of what a robot is to do, which costs it so much.
fn push_work(
    text: &mut Vec<u8>,
    scenario: &Scenario,
    robot: u32,
    task: Option<Goal>,
    cost: u64,
) -> Result<(), NoMemory>
    requires known { IfSome task (IsGoal scenario.now.site) }
    requires cost { cost ≡ task_cost scenario.now.site (start_of scenario.now.starts robot) task }
    ensures { OnOk result (text.new.items ≡ text.old.items ++ behind (job_words scenario.now robot task)) }
{
    let Some(goal) = task else {
        return push_text(text, b" idle 0");
    };
    push_task(
        text,
        scenario,
        goal,
        route_cost(scenario, robot, goal, cost),
    )
}

// What the route from the robot's start to the goal costs, where there is one, by what its task
// costs.
fn route_cost(scenario: &Scenario, robot: u32, goal: Goal, cost: u64) -> Option<u64>
    requires { cost ≡ task_cost scenario.now.site (start_of scenario.now.starts robot) (Some goal) }
    ensures { result ≡ route_cost scenario.now.site goal (start_of scenario.now.starts robot) }
{
    let site = scenario.site();
    let _count = site.cell_count();
    reached(cost)
}

// What a route costs, where there is one.
fn reached(cost: u64) -> Option<u64>
    ensures { (route : Option ℕ) → IfSome route (λ n. n < MOST) → cost ≡ cost_or_most route → result ≡ route }
{
    if cost < MOST { Some(cost) } else { None }
}

// Appends the words of a task and of what its route costs.
fn push_task(
    text: &mut Vec<u8>,
    scenario: &Scenario,
    goal: Goal,
    cost: Option<u64>,
) -> Result<(), NoMemory>
    requires { IsGoal scenario.now.site goal }
    ensures { OnOk result (text.new.items ≡ text.old.items ++ behind (task_words scenario.now.names goal cost)) }
{
    let site = scenario.site();
    let _cells = site.cell_count();
    push_word(text, thing_text(scenario.names(), thing_of(goal)))?;
    match cost {
        Some(cost) => push_number_word(text, cost),
        None => push_text(text, b" none"),
    }
}

// The thing that a goal is.
fn thing_of(goal: Goal) -> Thing
    ensures { result ≡ goal_thing goal }
{
    match goal {
        Goal::Cell(cell) => Thing::Cell(cell.0),
        Goal::Area(area) => Thing::Area(area),
    }
}

// The name of a thing that has one.
#[tactic(auto, unfolding(fleet_texts::specs::Words::name_text))]
fn thing_text(names: &Names, thing: Thing) -> &[u8]
    requires { number_of thing < count_of (same_kind thing) names.now }
    ensures { result.now ≡ name_text names.now thing }
{
    names.text(thing)
}

// Appends a line for each row: the robot and its number.
fn push_rows(text: &mut Vec<u8>, scenario: &Scenario, found: &Assignment) -> Result<(), NoMemory>
    requires { length found.now.columns ≡ length scenario.now.starts }
    ensures { OnOk result (text.new.items ≡ text.old.items ++ each (row_line scenario.now found.now) (length scenario.now.starts)) }
{
    for robot in 0..found.size() {
        push_row(text, scenario, found, robot)?;
    }
    Ok(())
}

// Appends the line of a robot's number.
fn push_row(
    text: &mut Vec<u8>,
    scenario: &Scenario,
    found: &Assignment,
    robot: u32,
) -> Result<(), NoMemory>
    requires { robot < length found.now.columns }
    ensures { OnOk result (text.new.items ≡ text.old.items ++ row_line scenario.now found.now robot) }
{
    push_text(text, b"row")?;
    push_robot(text, scenario.names(), RobotNo(robot))?;
    push_signed_word(text, found.row_number(robot))?;
    push_text(text, b"\n")
}

// Appends a line for each column: its place and its number.
fn push_columns(text: &mut Vec<u8>, found: &Assignment) -> Result<(), NoMemory>
    ensures { OnOk result (text.new.items ≡ text.old.items ++ each (column_line found.now) (length found.now.columns)) }
{
    for column in 0..found.size() {
        push_column(text, found, column)?;
    }
    Ok(())
}

// Appends the line of a column's number.
fn push_column(text: &mut Vec<u8>, found: &Assignment, column: u32) -> Result<(), NoMemory>
    requires { column < length found.now.columns }
    ensures { OnOk result (text.new.items ≡ text.old.items ++ column_line found.now column) }
{
    push_text(text, b"column")?;
    push_number_word(text, u64::from(column))?;
    push_signed_word(text, found.column_number(column))?;
    push_text(text, b"\n")
}

// Appends a space and a number, with `-` before it where it is negative.
fn push_signed_word(text: &mut Vec<u8>, number: i64) -> Result<(), NoMemory>
    ensures { OnOk result (text.new.items ≡ text.old.items ++ behind (signed_decimal number ∷ [])) }
{
    let mut buffer = Buffer::new();
    push_word(text, buffer.format(number).as_bytes())
}
