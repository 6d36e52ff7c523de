// The reader with ample memory.
use fleet_calls::request::Request;
use fleet_commands::command::Command;
use fleet_commands::read::read_commands;
use fleet_commands::refused::ReadRefused;
use fleet_names::names::{NameRefused, Names};
use fleet_names::thing::Thing;
use site_lines::fault::{At, Code};
use site_map::goal::Goal;
use std::alloc::Global;
use std::test::Fail;

fn cell(names: &mut Names, name: &[u8]) -> Result<(), NameRefused> {
    let number = names.count_cells();
    names.add(name, Thing::Cell(number))
}

fn robot(names: &mut Names, name: &[u8]) -> Result<(), NameRefused> {
    let number = names.count_robots();
    names.add(name, Thing::Robot(number))
}

// The cells a and b, the area yard and the robots r1 and r2.
fn junction(alloc: Global) -> Result<Names, NameRefused> {
    let mut names = Names::new(alloc);
    cell(&mut names, b"a")?;
    cell(&mut names, b"b")?;
    let yards = names.count_areas();
    names.add(b"yard", Thing::Area(yards))?;
    robot(&mut names, b"r1")?;
    robot(&mut names, b"r2")?;
    Ok(names)
}

// What a command asks: its word, and the last cell, the goal or the event.
fn asked(command: &Command) -> (&'static str, u64) {
    match &command.request {
        Request::Propose(route) => match route.cells() {
            [.., last] => ("propose", u64::from(last.0)),
            [] => ("propose", u64::MAX),
        },
        Request::Retry => ("retry", 0),
        Request::Cancel => ("cancel", 0),
        Request::Withdraw => ("withdraw", 0),
        Request::Replan(Goal::Cell(cell)) => ("replan", u64::from(cell.0)),
        Request::Replan(Goal::Area(area)) => ("area", u64::from(*area)),
        Request::Report(event) => ("report", event.0),
        Request::Look => ("look", 0),
    }
}

// The fault of a text, if it has one.
fn fault_of(alloc: Global, text: &str, names: &Names) -> Result<Option<At>, Fail> {
    if text.len() > 100_000 {
        return Err("too long".into());
    }
    match read_commands(alloc, text.as_bytes(), 0, 8, names) {
        Ok(_) => Ok(None),
        Err(ReadRefused::Bad(at)) => Ok(Some(at)),
        Err(ReadRefused::NoMemory) => Err("memory".into()),
    }
}

const COMMANDS: &[u8] = b"end\npropose r1 a b a # back\n\nretry r2\ncancel r1\r\nwithdraw r1
\treplan r2  b\nreplan r2 yard\nreport r1 012\nlook r1";

const ASKED: [(u32, &str, u64); 8] = [
    (0, "propose", 0),
    (1, "retry", 0),
    (0, "cancel", 0),
    (0, "withdraw", 0),
    (1, "replan", 1),
    (1, "area", 0),
    (0, "report", 12),
    (0, "look", 0),
];

const FAULTS: [(&str, u32, Code); 8] = [
    ("\u{7f} r1", 8, Code::C2),
    ("look r1\n\nask look r1\n", 10, Code::C3),
    ("propose zz\ngo\n", 8, Code::C4),
    ("# go\nlook zz a", 9, Code::C5),
    ("report zz -1", 8, Code::C6),
    ("report r1 0000000000000001", 8, Code::C6),
    ("propose r1 a r2", 8, Code::C7),
    ("replan r1 r2", 8, Code::C7),
];

#[test]
fn commands_are_read_in_order(rt: HostRuntime) -> Result<(), Fail> {
    let names = junction(rt.alloc()).map_err(|_| "refused")?;
    let commands = read_commands(rt.alloc(), COMMANDS, 4, 2, &names).map_err(|_| "refused")?;
    assert_eq!(rt; commands.len(), ASKED.len());
    for (command, (robot, word, what)) in commands.iter().zip(ASKED) {
        assert_eq!(rt; command.robot.0, robot);
        assert_eq!(rt; asked(command), (word, what));
    }
    Ok(())
}

#[test]
fn the_first_bad_line_is_named_with_its_least_code(rt: HostRuntime) -> Result<(), Fail> {
    let names = junction(rt.alloc()).map_err(|_| "refused")?;
    for (text, line, code) in FAULTS {
        assert_eq!(rt;
            fault_of(rt.alloc(), text, &names)?,
            Some(At { line, code })
        );
    }
    Ok(())
}

#[test]
fn lines_have_at_most_65536_bytes(rt: HostRuntime) -> Result<(), Fail> {
    let names = junction(rt.alloc()).map_err(|_| "refused")?;
    let mut text = String::from_str(rt.alloc(), "# ")?;
    for _ in 2..65_536 {
        text.push('#')?;
    }
    assert_eq!(rt; fault_of(rt.alloc(), text.as_str(), &names)?, None);
    text.push('#')?;
    let longer = At {
        line: 8,
        code: Code::C1,
    };
    assert_eq!(rt; fault_of(rt.alloc(), text.as_str(), &names)?, Some(longer));
    Ok(())
}
