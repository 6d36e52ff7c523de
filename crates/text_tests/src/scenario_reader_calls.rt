// Each public call once, with ample memory.
use fleet_base::numbers::CellNo;
use scenario::print::print_scenario;
use scenario::scenario::Scenario;
use scenario_reader::read::{read_front, read_scenario};
use scenario_reader::stop::ReadRefused;
use site_lines::fault::{At, Code};
use std::alloc::Global;
use std::test::Fail;

const YARDS: &str =
    "# two yards\nfleet 1\ncell a b\ncell c\narea yard c a\nlane a b 2\nlink b c 3\nrobot r1 a\nmission r1\nrepeat 2\nvisit yard\nvisit b\nagain\ndone\nend\n";

const YARDS_CANONICAL: &str =
    "fleet 1\ncell a\ncell b\ncell c\narea yard a c\nlink a b 2\nlink b a 2\nlink b c 3\nrobot r1 a\nmission r1\nvisit yard\nvisit b\nvisit yard\nvisit b\ndone\nend\n";

const FLOWS: &str =
    "fleet 2\r\ncell a p b c q d s\ncrossing x s q p # one flow, and the rest\nflow x p q\ncrossing y p s\nlane a p 1\nrobot r1 a\nrobot r2 c\nmission r2\ndone\nend";

const FLOWS_CANONICAL: &str =
    "fleet 2\ncell a\ncell p\ncell b\ncell c\ncell q\ncell d\ncell s\ncrossing x p q s\nflow x p q\nflow x s\ncrossing y p s\nlink a p 1\nlink p a 1\nrobot r1 a\nrobot r2 c\nend\n";

// The canonical text of a scenario, read again.
fn canonical(alloc: Global, text: &str) -> Option<Vec<u8>> {
    print_scenario(alloc, &read(alloc, text.as_bytes())?).ok()
}

fn read(alloc: Global, text: &[u8]) -> Option<Scenario> {
    if text.len() > 1_000_000 {
        return None;
    }
    read_scenario(alloc, text).ok()
}

// Where a text is bad.
fn fault(alloc: Global, text: &[u8]) -> Option<At> {
    if text.len() > 1_000_000 {
        return None;
    }
    match read_scenario(alloc, text) {
        Err(ReadRefused::Bad(at)) => Some(at),
        _ => None,
    }
}

#[test]
fn a_scenario_is_printed_in_its_canonical_text(rt: HostRuntime) -> Result<(), Fail> {
    let texts = [
        (YARDS, YARDS_CANONICAL),
        (FLOWS, FLOWS_CANONICAL),
        (YARDS_CANONICAL, YARDS_CANONICAL),
        (FLOWS_CANONICAL, FLOWS_CANONICAL),
    ];
    for (text, due) in texts {
        let printed = canonical(rt.alloc(), text).ok_or("read")?;
        assert!(rt; printed.as_slice() == due.as_bytes());
    }
    Ok(())
}

const BAD: [(&str, u32, Code); 45] = [
    ("", 1, Code::S22),
    ("\r", 2, Code::S22),
    ("fleet 1\ncell a\nrobot r1 a\n", 4, Code::S22),
    ("fleet 1\ncell a\x01 # \x01", 2, Code::S2),
    ("fleet 1 # \x01\ncell a\r\r\n", 2, Code::S2),
    ("\n# none\nfleet 01\n", 3, Code::S3),
    ("fleet 1 1\n", 1, Code::S3),
    ("fleet 3\n", 1, Code::S3),
    ("fleet 1\nfleet 1\n", 2, Code::S4),
    ("fleet 1\nvisit a\n", 2, Code::S4),
    ("fleet 1\nflow\n", 2, Code::S4),
    ("fleet 1\ncell a\nrobot r a\ncell b\n", 4, Code::S4),
    ("fleet 1\ncell a\nrobot r a\nmission r\nend\n", 5, Code::S4),
    ("fleet 1\ncell\n", 2, Code::S5),
    ("fleet 1\ncell a\ncrossing x\n", 3, Code::S5),
    ("fleet 1\ncell a b\nlink a b\n", 3, Code::S5),
    ("fleet 1\ncell a b\nlane a b 1 1\n", 3, Code::S6),
    ("fleet 1\nend 1\n", 2, Code::S6),
    ("fleet 1\ncell a a A\n", 2, Code::S7),
    ("fleet 1\ncell a b\nlane a b +1\n", 3, Code::S8),
    ("fleet 1\ncell a\nlink a zz 0\n", 3, Code::S9),
    ("fleet 1\ncell a\nlink a a 1000001\n", 3, Code::S9),
    ("fleet 1\ncell a\ncell a\n", 3, Code::S10),
    ("fleet 1\ncell a b a\n", 2, Code::S10),
    ("fleet 1\ncell a\ncrossing x x\n", 3, Code::S11),
    ("fleet 1\ncell a\nmission r1\n", 3, Code::S11),
    ("fleet 1\ncell a\narea b a\nrobot r b\n", 4, Code::S11),
    (
        "fleet 1\ncell a\nrobot r a\nmission r\nvisit r\n",
        5,
        Code::S11,
    ),
    ("fleet 1\ncell a\narea b a a\n", 3, Code::S12),
    (
        "fleet 1\ncell a\ncrossing x a\ncrossing y a\ncrossing z a\n",
        5,
        Code::S14,
    ),
    ("fleet 1\ncell a\nlink a a 1\n", 3, Code::S15),
    ("fleet 1\ncell a b\nlink b a 1\nlane a b 1\n", 4, Code::S15),
    (
        "fleet 1\ncell p q\ncrossing x p q\nrobot r1 p\nrobot r2 q\nend\n",
        5,
        Code::S16,
    ),
    (
        "fleet 1\ncell a\nrobot r a\nmission r\ndone\nmission r\n",
        6,
        Code::S17,
    ),
    (
        "fleet 1\ncell a\nrobot r a\nmission r\nrepeat 1\nrepeat 1\nrepeat 1\nrepeat 1\nrepeat 1\n",
        9,
        Code::S18,
    ),
    (
        "fleet 1\ncell a\nrobot r a\nmission r\nagain\n",
        5,
        Code::S18,
    ),
    (
        "fleet 1\ncell a\nrobot r a\nmission r\nrepeat 2\ndone\n",
        6,
        Code::S18,
    ),
    (
        "fleet 1\ncell a\nrobot r a\nmission r\nvisit a\nrepeat 64\nvisit a\nagain\n",
        8,
        Code::S19,
    ),
    ("fleet 1\ncell a\nend\n", 3, Code::S20),
    (
        "fleet 1\ncell a\nrobot r a\nend\n\n# none\nend\n",
        7,
        Code::S21,
    ),
    ("fleet 1\ncell a\nrobot r a\nend\n\x01\n", 5, Code::S2),
    (
        "fleet 2\ncell a p q\ncrossing x p q\nflow x a\n",
        4,
        Code::S23,
    ),
    (
        "fleet 2\ncell a p q\ncrossing x p q\nflow x p\nflow x q p\n",
        5,
        Code::S23,
    ),
    ("fleet 2\ncell p\nflow p p\n", 3, Code::S11),
    ("fleet 2\ncell p\ncrossing x p\nflow x p p\n", 4, Code::S12),
];

#[test]
fn the_first_bad_line_is_named_with_its_least_code(rt: HostRuntime) {
    for (text, line, code) in BAD {
        assert_eq!(rt; fault(rt.alloc(), text.as_bytes()), Some(At { line, code }));
    }
}

#[test]
fn long_lines_and_full_sites_are_refused(rt: HostRuntime) -> Result<(), Fail> {
    let long = vec![in rt.alloc(); b' '; 65_537]?;
    let s1 = At {
        line: 1,
        code: Code::S1,
    };
    assert_eq!(rt; fault(rt.alloc(), &long), Some(s1));
    assert!(rt; fault(rt.alloc(), &long[1..]) != Some(s1));
    let mut full = Vec::from_slice(rt.alloc(), b"fleet 1\ncell")?;
    for number in 0..1_025u32 {
        full.extend_from_slice(format!(in rt.alloc(); " c{number}")?.as_bytes())?;
    }
    let s13 = At {
        line: 2,
        code: Code::S13,
    };
    assert_eq!(rt; fault(rt.alloc(), &full), Some(s13));
    Ok(())
}

#[test]
fn a_front_ends_with_its_end_line(rt: HostRuntime) -> Result<(), Fail> {
    let text = b"fleet 1\ncell a\nrobot r a\nend # \x01\r\n\x01\x02";
    let front = read_front(rt.alloc(), text).map_err(|_| "refused")?;
    assert_eq!(rt; front.lines, 4);
    assert_eq!(rt; front.used, 34);
    assert_eq!(rt; front.scenario.starts(), [CellNo(0)].as_slice());
    let open = At {
        line: 3,
        code: Code::S22,
    };
    let refused = read_front(rt.alloc(), b"fleet 1\ncell a\n").err();
    assert_eq!(rt; refused, Some(ReadRefused::Bad(open)));
    Ok(())
}

#[test]
fn a_scenario_gives_its_parts(rt: HostRuntime) -> Result<(), Fail> {
    let scenario = read(rt.alloc(), YARDS.as_bytes()).ok_or("read")?;
    assert_eq!(rt; scenario.site().cell_count(), 3);
    assert_eq!(rt; scenario.names().count_robots(), 1);
    assert_eq!(rt; scenario.missions().robot_count(), 1);
    let again = Scenario::of_parts(scenario.into_parts());
    assert_eq!(rt; again.starts(), [CellNo(0)].as_slice());
    Ok(())
}
