// One entry of a journal: its call is made, and the answer compared with it.
ghost use Rattle.std.specs.Prelude.{◌≡◌, ◌≤◌, true, [], ◌∷◌, None, IfSome};
ghost use Rattle.fleet_model.specs.Lists.{has_cell};
ghost use Rattle.fleet_base.specs.declared.entries.Act.TheVariants as act;
ghost use Rattle.fleet_base.specs.declared.limits.TheConstants.{MAX_CELLS};
ghost use Rattle.fleet_base.specs.declared.numbers.CellNo.{CellNo};
ghost use Rattle.fleet_model.specs.Journals.{last_of};
ghost use Rattle.route_plan.specs.Labels.{has};
ghost use Rattle.journal_replay.specs.Taken.{IsTaken, of_proposal, of_replan, of_retry};

use coordinator::coordinator::Coordinator;
use fleet_base::answers::{ProposeRefused, Proposed, ReplanRefused, RetryRefused};
use fleet_base::entries::{Act, Entry};
use fleet_base::limits::MAX_CELLS;
use fleet_base::numbers::{CellNo, EventNo, RobotNo};
use fleet_base::path::Path;
use fleet_base::robot_list::RobotList;
use route_plan::cell_set::CellSet;

// Why an entry isn't taken.
#[derive(Clone, Copy, Debug, PartialEq, Eq)]
pub(crate) enum EntryRefused {
    // Its call isn't accepted, or has another answer.
    Differs,
    // No memory was left.
    NoMemory,
}

impl From<ProposeRefused> for EntryRefused {
    ghost from_gives = { λ cause refused. refused ≡ of_proposal cause };

    fn from(cause: ProposeRefused) -> Self {
        match cause {
            ProposeRefused::NoMemory => EntryRefused::NoMemory,
            _ => EntryRefused::Differs,
        }
    }
}

impl From<ReplanRefused> for EntryRefused {
    ghost from_gives = { λ cause refused. refused ≡ of_replan cause };

    fn from(cause: ReplanRefused) -> Self {
        match cause {
            ReplanRefused::NoMemory => EntryRefused::NoMemory,
            _ => EntryRefused::Differs,
        }
    }
}

impl From<RetryRefused> for EntryRefused {
    ghost from_gives = { λ cause refused. refused ≡ of_retry cause };

    fn from(cause: RetryRefused) -> Self {
        match cause {
            RetryRefused::NoMemory => EntryRefused::NoMemory,
            _ => EntryRefused::Differs,
        }
    }
}

// Makes the call that an entry records. Where the answer isn't the entry's, the coordinator is of no
// use any more.
pub(crate) fn take_entry(fleet: &mut Coordinator, entry: &Entry) -> Result<(), EntryRefused>
    ensures { IsTaken entry.now fleet.old fleet.new result }
{
    let robot = entry.robot;
    match &entry.act {
        Act::Merged { route, first } => take_merged(fleet, robot, route, *first),
        Act::Deferred { route, cycle } => take_deferred(fleet, robot, route, cycle),
        Act::Retried { first } => take_retried(fleet, robot, *first),
        Act::Canceled => take_canceled(fleet, robot),
        Act::Withdrawn { removed, end } => take_withdrawn(fleet, robot, *removed, *end),
        Act::Replanned { route, first } => take_replanned(fleet, robot, route, *first),
        Act::Reported { event } => take_reported(fleet, robot, *event),
    }
}

fn take_merged(
    fleet: &mut Coordinator,
    robot: RobotNo,
    route: &Path,
    first: EventNo,
) -> Result<(), EntryRefused>
    ensures { IsTaken (record { robot = robot; act = act.Merged route.now first }) fleet.old fleet.new result }
{
    match fleet.propose(robot, route.cells())? {
        Proposed::Merged(span) if span.first == first => Ok(()),
        _ => Err(EntryRefused::Differs),
    }
}

fn take_deferred(
    fleet: &mut Coordinator,
    robot: RobotNo,
    route: &Path,
    cycle: &RobotList,
) -> Result<(), EntryRefused>
    ensures { IsTaken (record { robot = robot; act = act.Deferred route.now cycle.now }) fleet.old fleet.new result }
{
    match fleet.propose(robot, route.cells())? {
        Proposed::Deferred(block) if same_robots(&block.cycle, cycle) => Ok(()),
        _ => Err(EntryRefused::Differs),
    }
}

fn take_retried(fleet: &mut Coordinator, robot: RobotNo, first: EventNo) -> Result<(), EntryRefused>
    ensures { IsTaken (record { robot = robot; act = act.Retried first }) fleet.old fleet.new result }
{
    let span = fleet.retry(robot)?;
    if span.first == first {
        Ok(())
    } else {
        Err(EntryRefused::Differs)
    }
}

fn take_canceled(fleet: &mut Coordinator, robot: RobotNo) -> Result<(), EntryRefused>
    ensures { IsTaken (record { robot = robot; act = act.Canceled }) fleet.old fleet.new result }
{
    match fleet.cancel(robot) {
        Ok(()) => Ok(()),
        Err(_) => Err(EntryRefused::Differs),
    }
}

fn take_withdrawn(
    fleet: &mut Coordinator,
    robot: RobotNo,
    removed: u32,
    end: CellNo,
) -> Result<(), EntryRefused>
    ensures { IsTaken (record { robot = robot; act = act.Withdrawn removed end }) fleet.old fleet.new result }
{
    match fleet.withdraw(robot) {
        Ok(withdrawn) if withdrawn.removed == removed && withdrawn.end == end => Ok(()),
        _ => Err(EntryRefused::Differs),
    }
}

// The replan goes to the last cell of the route alone.
fn take_replanned(
    fleet: &mut Coordinator,
    robot: RobotNo,
    route: &Path,
    first: EventNo,
) -> Result<(), EntryRefused>
    ensures { IsTaken (record { robot = robot; act = act.Replanned route.now first }) fleet.old fleet.new result }
{
    let _kept = fleet.journal(); // its clauses: what every coordinator keeps
    let cells = route.cells();
    let Some(goal) = last_of(cells) else {
        return Err(EntryRefused::Differs);
    };
    fleet.replan(robot, &goal)?;
    match fleet.journal().last() {
        Some(entry) if is_replan(&entry.act, cells, first) => Ok(()),
        _ => Err(EntryRefused::Differs),
    }
}

fn take_reported(
    fleet: &mut Coordinator,
    robot: RobotNo,
    event: EventNo,
) -> Result<(), EntryRefused>
    ensures { IsTaken (record { robot = robot; act = act.Reported event }) fleet.old fleet.new result }
{
    match fleet.report(robot, event) {
        Ok(()) => Ok(()),
        Err(_) => Err(EntryRefused::Differs),
    }
}

// Whether two lists have the same robots in the same order. The `==` of lists is told by the places
// that they keep their robots in, which nothing outside knows of.
fn same_robots(one: &RobotList, other: &RobotList) -> bool
    ensures same { result ≡ true → one.now ≡ other.now }
    ensures all { one.now ≡ other.now → result ≡ true }
{
    for place in 0..one.len() {
        if one.get(place) != other.get(place) {
            return false;
        }
    }
    one.len() == other.len()
}

// The last of the cells as a set, if there is one that a site can have.
fn last_of(cells: &[CellNo]) -> Option<CellSet>
    ensures some { IfSome result (λ goal. (cell : CellNo) → has goal cell ≡ has_cell (last_of cells.now) cell) }
    ensures none { result ≡ None → (cell : CellNo) → last_of cells.now ≡ cell ∷ [] → MAX_CELLS ≤ cell.0 }
{
    let cell = *cells.last()?;
    if cell.0 >= MAX_CELLS {
        return None;
    }
    let mut goal = CellSet::new();
    goal.put(cell);
    Some(goal)
}

// Whether this is the act of a replan with these cells and this first event.
fn is_replan(told: &Act, cells: &[CellNo], number: EventNo) -> bool
    ensures same { result ≡ true → told.now ≡ act.Replanned cells.now number }
    ensures all { told.now ≡ act.Replanned cells.now number → result ≡ true }
{
    match told {
        Act::Replanned { route, first } => *first == number && route.cells() == cells,
        _ => false,
    }
}
