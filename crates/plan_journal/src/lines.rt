// The lines of entries.
ghost use Rattle.std.specs.Prelude.{◌≡◌, ◌≤◌, ◌&&◌, Bool, Ok, Err, length, map};
ghost use Rattle.std.specs.List.{list_all};
ghost use Rattle.std.specs.Str.Parse.{digits_value};
ghost use Rattle.fleet_base.specs.declared.entries.Act.TheVariants.{Withdrawn};
ghost use Rattle.fleet_names.specs.Names.{count_of};
ghost use Rattle.fleet_names.specs.Things as things;
ghost use Rattle.site_lines.specs.declared.fault.Code.TheVariants.{J7};
ghost use Rattle.plan_journal.specs.Entries.{judged, rows_of, cells_of, robots_of, is_plain_number, is_number_to, event_in, is_cell, cell_in, is_robot, robot_in, route_line, event_line, deferred_line, deferred_by, canceled_line, withdrawn_line, end_line, merged, replanned, retried, reported, behind_keyword, line_of};
ghost use Rattle.plan_journal.specs.Gives.{GivesLine};

use crate::words::{
    Keyword, cell_named, has_empty, keyword_of, number_to, plain_number, robot_named,
};
use fleet_base::entries::{Act, Entry};
use fleet_base::limits::{MAX_CAP, MAX_ROBOTS};
use fleet_base::numbers::{CellNo, EventNo, RobotNo};
use fleet_base::path::{NoMemory, Path};
use fleet_base::robot_list::RobotList;
use fleet_names::names::Names;
use site_lines::fault::Code;
use std::alloc::{AllocError, Global};

// As many events a withdrawal may remove.
const MAX_REMOVED: u64 = MAX_CAP as u64;

// As many robots a cycle may have.
const MAX_CYCLE: u64 = MAX_ROBOTS as u64;

// Why a line isn't read.
#[derive(Clone, Copy, Debug, PartialEq, Eq)]
pub enum LineRefused {
    // The line is bad.
    Bad(Code),
    // No memory was left.
    NoMemory,
}

impl From<Code> for LineRefused {
    ghost use Rattle.plan_journal.specs.declared.lines.LineRefused.TheVariants.{Bad};

    ghost from_gives = { λ code refused. refused ≡ Bad code };

    fn from(code: Code) -> Self {
        LineRefused::Bad(code)
    }
}

impl From<NoMemory> for LineRefused {
    ghost use Rattle.plan_journal.specs.declared.lines.LineRefused.TheVariants.{NoMemory};

    ghost from_gives = { λ _ refused. refused ≡ NoMemory };

    fn from(_error: NoMemory) -> Self {
        LineRefused::NoMemory
    }
}

impl From<AllocError> for LineRefused {
    ghost use Rattle.plan_journal.specs.declared.lines.LineRefused.TheVariants.{NoMemory};

    ghost from_gives = { λ _ refused. refused ≡ NoMemory };

    fn from(_error: AllocError) -> Self {
        LineRefused::NoMemory
    }
}

// A line that has a robot, a number and a route.
#[derive(Drop)]
pub struct RouteLine {
    pub robot: RobotNo,
    pub first: EventNo,
    pub route: Path,
}

// A line that has a robot and a number.
#[derive(Clone, Copy)]
pub struct EventLine {
    pub robot: RobotNo,
    pub event: EventNo,
}

// The robot and the number of a line, by the words behind its keyword.
fn event_line(names: &Names, full: bool, words: &[&[u8]]) -> Result<EventLine, Code>
    ensures { result ≡ event_line names.now full (map (λ w. w.now) words.now) }
{
    match words {
        [robot, event] => event_by(names, full, has_empty(words), robot, event),
        _ => Err(Code::J5),
    }
}

// The same by the single words; `empty` tells whether one of them is empty.
fn event_by(
    names: &Names,
    full: bool,
    empty: bool,
    robot: &[u8],
    event: &[u8],
) -> Result<EventLine, Code>
    ensures { result ≡ judged (rows_of empty (is_plain_number event.now) (is_robot names.now robot.now) full)
        (record { robot = robot_in names.now robot.now; event = event_in event.now }) }
{
    if empty {
        return Err(Code::J5);
    }
    let event = EventNo(plain_number(event)?);
    let robot = robot_named(names, robot)?;
    if full {
        return Err(Code::J8);
    }
    Ok(EventLine { robot, event })
}

// The entry of a canceled route.
fn canceled_line(names: &Names, full: bool, words: &[&[u8]]) -> Result<Entry, Code>
    ensures { result ≡ canceled_line names.now full (map (λ w. w.now) words.now) }
{
    let [name] = words else {
        return Err(Code::J5);
    };
    if has_empty(words) {
        return Err(Code::J5);
    }
    let robot = robot_named(names, name)?;
    if full {
        return Err(Code::J8);
    }
    Ok(Entry {
        robot,
        act: Act::Canceled,
    })
}

// The entry of a withdrawal.
fn withdrawn_line(names: &Names, full: bool, words: &[&[u8]]) -> Result<Entry, Code>
    ensures { result ≡ withdrawn_line names.now full (map (λ w. w.now) words.now) }
{
    match words {
        [robot, removed, end] => {
            withdrawn_by(names, full, has_empty(words), robot, removed, end)
        }
        _ => Err(Code::J5),
    }
}

// The same by the single words.
fn withdrawn_by(
    names: &Names,
    full: bool,
    empty: bool,
    robot: &[u8],
    removed: &[u8],
    end: &[u8],
) -> Result<Entry, Code>
    ensures { result ≡ judged (rows_of empty (is_number_to 1000000 removed.now) (is_robot names.now robot.now && is_cell names.now end.now) full)
        (record { robot = robot_in names.now robot.now; act = Withdrawn (digits_value 10 removed.now) (cell_in names.now end.now) }) }
{
    if empty {
        return Err(Code::J5);
    }
    let removed = number_to(MAX_REMOVED, removed)? as u32;
    let robot = robot_named(names, robot)?;
    let end = cell_named(names, end)?;
    if full {
        return Err(Code::J8);
    }
    Ok(Entry {
        robot,
        act: Act::Withdrawn { removed, end },
    })
}

// The robot, the number and the route of a line, by the words behind its keyword.
fn route_line(
    alloc: Global,
    names: &Names,
    full: bool,
    words: &[&[u8]],
) -> Result<RouteLine, LineRefused>
    ensures { GivesLine (λ line. line) result (route_line names.now full (map (λ w. w.now) words.now)) }
{
    match words {
        [robot, first, _, ..] => {
            route_by(
                alloc,
                names,
                full,
                has_empty(words),
                robot,
                first,
                &words[2..],
            )
        }
        _ => Err(LineRefused::Bad(Code::J5)),
    }
}

// The same by the single words.
fn route_by(
    alloc: Global,
    names: &Names,
    full: bool,
    empty: bool,
    robot: &[u8],
    first: &[u8],
    cells: &[&[u8]],
) -> Result<RouteLine, LineRefused>
    ensures { GivesLine (λ line. line) result
        (judged (rows_of empty (is_plain_number first.now) (is_robot names.now robot.now && list_all (is_cell names.now) (map (λ w. w.now) cells.now)) full)
        (record { robot = robot_in names.now robot.now; first = event_in first.now; route = map (cell_in names.now) (map (λ w. w.now) cells.now) })) }
{
    if empty {
        return Err(LineRefused::Bad(Code::J5));
    }
    let first = EventNo(plain_number(first)?);
    let robot = robot_named(names, robot)?;
    let route = cells_named(alloc, names, cells)?;
    if full {
        return Err(LineRefused::Bad(Code::J8));
    }
    Ok(RouteLine {
        robot,
        first,
        route,
    })
}

// The cells of these names.
fn cells_named(alloc: Global, names: &Names, words: &[&[u8]]) -> Result<Path, LineRefused>
    ensures { GivesLine (λ path. path) result (cells_of names.now (map (λ w. w.now) words.now)) }
{
    let mut cells = Vec::new(alloc);
    for word in words {
        let cell = cell_named(names, word)?;
        cells.push(cell).map_err(AllocError::from)?;
    }
    Ok(Path::from_vec(cells))
}

// The robots of these names.
fn robots_named(names: &Names, words: &[&[u8]]) -> Result<RobotList, Code>
    requires few { count_of things.is_robot names.now ≤ 64 }
    requires short { length words.now ≤ 64 }
    ensures { result ≡ robots_of names.now (map (λ w. w.now) words.now) }
{
    let mut robots = RobotList::new();
    for word in words {
        robots.push(robot_named(names, word)?);
    }
    Ok(robots)
}

// The entry of a deferred route, by the words behind its keyword.
fn deferred_line(
    alloc: Global,
    names: &Names,
    full: bool,
    words: &[&[u8]],
) -> Result<Entry, LineRefused>
    requires { count_of things.is_robot names.now ≤ 64 }
    ensures { GivesLine (λ entry. entry) result (deferred_line names.now full (map (λ w. w.now) words.now)) }
{
    match words {
        [robot, count, ..] => {
            // The number of robots is read before the words are judged.
            let count = number_to(MAX_CYCLE, count)? as usize;
            deferred_by(
                alloc,
                names,
                full,
                has_empty(words),
                robot,
                count,
                &words[2..],
            )
        }
        _ => Err(LineRefused::Bad(Code::J5)),
    }
}

// The same by the robot, the number of robots in the cycle, and the words behind it.
fn deferred_by(
    alloc: Global,
    names: &Names,
    full: bool,
    empty: bool,
    robot: &[u8],
    count: usize,
    others: &[&[u8]],
) -> Result<Entry, LineRefused>
    requires few { count_of things.is_robot names.now ≤ 64 }
    requires short { count ≤ 64 }
    ensures { GivesLine (λ entry. entry) result (deferred_by names.now full empty robot.now count (map (λ w. w.now) others.now)) }
{
    if empty || others.len() <= count {
        return Err(LineRefused::Bad(Code::J5));
    }
    let (cycle, cells) = others.split_at(count);
    let robot = robot_named(names, robot)?;
    let cycle = robots_named(names, cycle)?;
    let route = cells_named(alloc, names, cells)?;
    if full {
        return Err(LineRefused::Bad(Code::J8));
    }
    Ok(Entry {
        robot,
        act: Act::Deferred { route, cycle },
    })
}

// The last line has no word behind its keyword.
fn end_line(words: &[&[u8]]) -> Result<Option<Entry>, Code>
    ensures { result ≡ end_line (map (λ w. w.now) words.now) }
{
    if words.is_empty() {
        Ok(None)
    } else {
        Err(Code::J5)
    }
}

// The entry that a line says, by its words; none at the journal's end. `full` tells whether a
// million entries stand above.
pub(crate) fn line_of(
    alloc: Global,
    names: &Names,
    full: bool,
    words: &[&[u8]],
) -> Result<Option<Entry>, LineRefused>
    requires { count_of things.is_robot names.now ≤ 64 }
    ensures { GivesLine (λ entry. entry) result (line_of names.now full (map (λ w. w.now) words.now)) }
{
    match words {
        [first, ..] => behind_keyword(alloc, names, full, keyword_of(first), &words[1..]),
        _ => Err(LineRefused::Bad(Code::J4)),
    }
}

// The same by the keyword and the words behind it.
fn behind_keyword(
    alloc: Global,
    names: &Names,
    full: bool,
    keyword: Option<Keyword>,
    words: &[&[u8]],
) -> Result<Option<Entry>, LineRefused>
    requires { count_of things.is_robot names.now ≤ 64 }
    ensures { GivesLine (λ entry. entry) result (behind_keyword names.now full keyword (map (λ w. w.now) words.now)) }
{
    let entry = match keyword {
        None => return Err(LineRefused::Bad(Code::J4)),
        Some(Keyword::End) => return Ok(end_line(words)?),
        Some(Keyword::Merged) => merged(route_line(alloc, names, full, words)?),
        Some(Keyword::Deferred) => deferred_line(alloc, names, full, words)?,
        Some(Keyword::Retried) => retried(event_line(names, full, words)?),
        Some(Keyword::Canceled) => canceled_line(names, full, words)?,
        Some(Keyword::Withdrawn) => withdrawn_line(names, full, words)?,
        Some(Keyword::Replanned) => replanned(route_line(alloc, names, full, words)?),
        Some(Keyword::Reported) => reported(event_line(names, full, words)?),
    };
    Ok(Some(entry))
}

fn merged(line: RouteLine) -> Entry
    ensures { result ≡ merged line }
{
    Entry {
        robot: line.robot,
        act: Act::Merged {
            route: line.route,
            first: line.first,
        },
    }
}

fn replanned(line: RouteLine) -> Entry
    ensures { result ≡ replanned line }
{
    Entry {
        robot: line.robot,
        act: Act::Replanned {
            route: line.route,
            first: line.first,
        },
    }
}

fn retried(line: EventLine) -> Entry
    ensures { result ≡ retried line }
{
    Entry {
        robot: line.robot,
        act: Act::Retried { first: line.event },
    }
}

fn reported(line: EventLine) -> Entry
    ensures { result ≡ reported line }
{
    Entry {
        robot: line.robot,
        act: Act::Reported { event: line.event },
    }
}
