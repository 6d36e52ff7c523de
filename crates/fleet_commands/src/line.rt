// What a line of commands says.
ghost use Rattle.std.specs.Prelude.{◌≡◌, ◌<◌, [], ◌∷◌, if◌then◌else◌, IfOk, IfSome, Some, None, All};
ghost use Rattle.std.specs.Option.{option_map};
ghost use Rattle.fleet_names.specs.Names.{count_of};
ghost use Rattle.fleet_names.specs.Things.{is_cell};
ghost use Rattle.std.specs.Str.Parse.{digits_value};
ghost use Rattle.site_lines.specs.Numbers.{is_number};
ghost use Rattle.site_lines.specs.Words.{words_of};
ghost use Rattle.fleet_commands.specs.Commands.{IsDeclared, IsDeclaredRequest};
ghost use Rattle.fleet_commands.specs.Gives.{Tells, Says};
ghost use Rattle.fleet_commands.specs.Reading.{first, undeclared, robot_faults, faults_behind, faults_of, command_behind, command_in};
ghost use Rattle.fleet_commands.specs.UsedNames.{cells_named, robot_named};
ghost use Rattle.fleet_commands.specs.declared.keyword.Keyword.TheVariants as word;

use crate::command::Command;
use crate::keyword::{Keyword, keyword_of};
use crate::refused::LineRefused;
use crate::used_names::{cell_named, goal_named, robot_named};
use crate::words::Words;
use fleet_base::numbers::EventNo;
use fleet_base::path::Path;
use fleet_calls::request::Request;
use fleet_names::names::Names;
use site_lines::fault::Code;
use site_lines::line::is_too_long;
use site_lines::number::read_number;
use site_lines::word::has_bad_byte;
use std::alloc::Global;

// The command of a line; none where the line is blank.
pub(crate) fn command_in(
    alloc: Global,
    line: &[u8],
    names: &Names,
) -> Result<Option<Command>, LineRefused>
    ensures says { Says result (faults_of names.now line.now) (Some (command_in names.now (words_of line.now))) }
    ensures declared { IfOk result (λ said. IfSome said (IsDeclared names.now)) }
{
    if is_too_long(line) {
        return Err(LineRefused::Bad(Code::C1));
    }
    if has_bad_byte(line) {
        return Err(LineRefused::Bad(Code::C2));
    }
    let mut words = Words::of(line);
    let Some(word) = words.next() else {
        return Ok(None);
    };
    let keyword = keyword_of(word).ok_or(Code::C3)?;
    Ok(Some(command_behind(alloc, keyword, words, names)?))
}

// The command of a keyword and the words behind it.
fn command_behind(
    alloc: Global,
    keyword: Keyword,
    words: Words,
    names: &Names,
) -> Result<Command, LineRefused>
    ensures says { Says result (faults_behind names.now keyword words.entry) (command_behind names.now keyword words.entry) }
    ensures declared { IfOk result (IsDeclared names.now) }
{
    match keyword {
        Keyword::Propose => propose(alloc, words, names),
        Keyword::Retry => Ok(of_robot(Request::Retry, words, names)?),
        Keyword::Cancel => Ok(of_robot(Request::Cancel, words, names)?),
        Keyword::Withdraw => Ok(of_robot(Request::Withdraw, words, names)?),
        Keyword::Replan => Ok(replan(words, names)?),
        Keyword::Report => Ok(report(words, names)?),
        Keyword::Look => Ok(of_robot(Request::Look, words, names)?),
    }
}

// A robot, then one or more cells.
fn propose(alloc: Global, mut words: Words, names: &Names) -> Result<Command, LineRefused>
    ensures says { Says result (faults_behind names.now word.Propose words.entry) (command_behind names.now word.Propose words.entry) }
    ensures declared { IfOk result (IsDeclared names.now) }
{
    let robot = words.next().ok_or(Code::C4)?;
    let route = route(alloc, words, names)?;
    if route.cells().is_empty() {
        return Err(LineRefused::Bad(Code::C4));
    }
    let robot = robot_named(names, robot).ok_or(Code::C7)?;
    Ok(Command {
        robot,
        request: Request::Propose(route),
    })
}

// The route of the cells that the words name, each of them one.
fn route(alloc: Global, mut words: Words, names: &Names) -> Result<Path, LineRefused>
    ensures says { Says result (undeclared (cells_named names.now words.entry) ∷ []) (cells_named names.now words.entry) }
    ensures declared { IfOk result (λ cells. All (λ c. c.0 < count_of is_cell names.now) cells) }
{
    let mut cells = Vec::new(alloc);
    while let Some(word) = words.next() {
        cells.push(cell_named(names, word).ok_or(Code::C7)?)?;
    }
    Ok(Path::from_vec(cells))
}

// A robot, and nothing else.
fn of_robot(request: Request, words: Words, names: &Names) -> Result<Command, Code>
    requires { IsDeclaredRequest names.now request }
    ensures says { Tells result (robot_faults names.now words.entry) (option_map (λ robot. record { robot = robot; request = request }) (robot_named names.now (first words.entry))) }
    ensures declared { IfOk result (IsDeclared names.now) }
{
    let robot = robot_named(names, words.one()?).ok_or(Code::C7)?;
    Ok(Command { robot, request })
}

// A robot, then a cell or an area.
fn replan(words: Words, names: &Names) -> Result<Command, Code>
    ensures says { Tells result (faults_behind names.now word.Replan words.entry) (command_behind names.now word.Replan words.entry) }
    ensures declared { IfOk result (IsDeclared names.now) }
{
    let (robot, goal) = words.two()?;
    let robot = robot_named(names, robot).ok_or(Code::C7)?;
    let goal = goal_named(names, goal).ok_or(Code::C7)?;
    Ok(Command {
        robot,
        request: Request::Replan(goal),
    })
}

// A robot, then the number of an event.
fn report(words: Words, names: &Names) -> Result<Command, Code>
    ensures says { Tells result (faults_behind names.now word.Report words.entry) (command_behind names.now word.Report words.entry) }
    ensures declared { IfOk result (IsDeclared names.now) }
{
    let (robot, number) = words.two()?;
    let event = event_in(number).ok_or(Code::C6)?;
    let robot = robot_named(names, robot).ok_or(Code::C7)?;
    Ok(Command {
        robot,
        request: Request::Report(event),
    })
}

// The event whose number a word says, in 1 to 15 digits.
fn event_in(word: &[u8]) -> Option<EventNo>
    ensures { result ≡ (if is_number 15 word.now then Some (record { 0 = digits_value 10 word.now }) else None) }
{
    match read_number(word, 15, 0, u64::MAX) {
        Ok(number) => Some(EventNo(number)),
        Err(_) => None,
    }
}
