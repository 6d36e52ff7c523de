// The journals of every act read, and a bad line for each code.
use fleet_base::numbers::RobotNo;
use fleet_names::names::{NameRefused, Names};
use fleet_names::thing::Thing;
use fleet_texts::journal::print_journal;
use plan_journal::reading::{
    Place, ReadJournalRefused, read_entry, read_header, read_journal, read_rest,
};
use site_lines::fault::{At, Code};
use std::alloc::Global;
use std::test::Fail;

// Cells a to e, and three robots.
fn names(alloc: Global) -> Result<Names, NameRefused> {
    let mut names = Names::new(alloc);
    for name in ["a", "b", "c", "d", "e"] {
        let number = names.count_cells();
        names.add(name.as_bytes(), Thing::Cell(number))?;
    }
    for name in ["r1", "r2", "r3"] {
        let number = names.count_robots();
        names.add(name.as_bytes(), Thing::Robot(number))?;
    }
    Ok(names)
}

const JOURNAL: &str =
    "journal 1\nmerged r1 1 a b\ndeferred r1 0 a b\ndeferred r2 2 r2 r1 b a\nretried r2 7\ncanceled r1\nwithdrawn r1 6 c\nreplanned r1 1 b e d\nreported r3 999999999999999\nreported r3 0\nend\n";

// The answer of a text: how many entries, bytes and lines it has, or its fault.
fn answer(
    alloc: Global,
    names: &Names,
    text: &str,
) -> Result<(usize, usize, u32), ReadJournalRefused> {
    if names.count_robots() > 64 || text.len() > 65_536 {
        return Err(ReadJournalRefused::NoMemory);
    }
    let front = read_journal(alloc, text.as_bytes(), names)?;
    Ok((front.entries.len(), front.used, front.lines))
}

#[test]
fn a_journal_is_read_up_to_its_end(rt: HostRuntime) -> Result<(), Fail> {
    let names = names(rt.alloc()).map_err(|_| "names")?;
    let told = Ok((9, JOURNAL.len(), 11));
    assert_eq!(rt; answer(rt.alloc(), &names, JOURNAL), told);
    let behind = format!(in rt.alloc(); "{JOURNAL}state 2\r\n\nmore")?;
    assert_eq!(rt; answer(rt.alloc(), &names, behind.as_str()), told);
    assert_eq!(rt;
        answer(rt.alloc(), &names, "journal 1\nend\n"),
        Ok((0, 14, 2))
    );
    Ok(())
}

#[test]
fn what_is_read_is_printed_again(rt: HostRuntime) -> Result<(), Fail> {
    let names = names(rt.alloc()).map_err(|_| "names")?;
    assert!(rt; names.count_robots() <= 64);
    assert!(rt; JOURNAL.len() < 65_536);
    let front = read_journal(rt.alloc(), JOURNAL.as_bytes(), &names).map_err(|_| "refused")?;
    let text = print_journal(rt.alloc(), &names, &front.entries)?;
    assert!(rt; text.as_slice() == JOURNAL.as_bytes());
    Ok(())
}

#[test]
fn a_journal_is_read_line_by_line(rt: HostRuntime) -> Result<(), Fail> {
    let names = names(rt.alloc()).map_err(|_| "names")?;
    assert!(rt; names.count_robots() <= 64);
    let text = b"journal 1\nreported r1 1\nreported r2 02\nend\n".as_slice();
    let header = Place { used: 10, lines: 1 };
    let mut place = read_header(text).map_err(|_| "header")?;
    assert_eq!(rt; place, header);
    let bad = Err(ReadJournalRefused::Bad(At {
        line: 3,
        code: Code::J6,
    }));
    assert_eq!(rt; read_rest(rt.alloc(), text, &names, place), bad);
    let first = read_entry(rt.alloc(), text, &names, &mut place).map_err(|_| "entry")?;
    let robot = first.map(|entry| entry.robot);
    assert_eq!(rt; robot, Some(RobotNo(0)));
    let behind = Place { used: 24, lines: 2 };
    assert_eq!(rt; place, behind);
    let second = read_entry(rt.alloc(), text, &names, &mut place).map(|_| ());
    assert_eq!(rt; second, bad);
    assert_eq!(rt; place, behind);
    assert_eq!(rt;
        read_header(b"journal 2\n"),
        Err(At {
            line: 1,
            code: Code::J3
        })
    );
    Ok(())
}

#[test]
fn the_place_behind_a_journal_is_its_end(rt: HostRuntime) -> Result<(), Fail> {
    let names = names(rt.alloc()).map_err(|_| "names")?;
    assert!(rt; names.count_robots() <= 64);
    let text = b"journal 1\nend\nmore".as_slice();
    let mut place = read_header(text).map_err(|_| "header")?;
    assert_eq!(rt; read_rest(rt.alloc(), text, &names, place), Ok(()));
    let end = read_entry(rt.alloc(), text, &names, &mut place).map_err(|_| "end")?;
    assert!(rt; end.is_none());
    assert_eq!(rt; place, Place { used: 14, lines: 2 });
    Ok(())
}

const BAD: [(&str, u32, Code); 37] = [
    ("journal 1\nreported r1 1\t\nend\n", 2, Code::J2),
    ("journal 1\nreported r1 1\r\nend\n", 2, Code::J2),
    ("journal  1\nend\n", 1, Code::J3),
    ("\njournal 1\nend\n", 1, Code::J3),
    ("journal 2\nend\n", 1, Code::J3),
    ("journal 1\n\nend\n", 2, Code::J4),
    ("journal 1\n end\nend\n", 2, Code::J4),
    ("journal 1\njournal 1\nend\n", 2, Code::J4),
    ("journal 1\nMerged r1 1 a b\nend\n", 2, Code::J4),
    ("journal 1\nreported r1\nend\n", 2, Code::J5),
    ("journal 1\nreported r1 1 \nend\n", 2, Code::J5),
    ("journal 1\nreported r1 1 2\nend\n", 2, Code::J5),
    ("journal 1\nreported  1\nend\n", 2, Code::J5),
    ("journal 1\nmerged r1 01\nend\n", 2, Code::J5),
    ("journal 1\nmerged r1 1\nend\n", 2, Code::J5),
    ("journal 1\ncanceled\nend\n", 2, Code::J5),
    ("journal 1\nwithdrawn r1 x\nend\n", 2, Code::J5),
    ("journal 1\nend \nend\n", 2, Code::J5),
    ("journal 1\ndeferred r1\nend\n", 2, Code::J5),
    ("journal 1\ndeferred  0 a\nend\n", 2, Code::J5),
    ("journal 1\ndeferred r1 2 r2 r1\nend\n", 2, Code::J5),
    ("journal 1\ndeferred r1 0\nend\n", 2, Code::J5),
    ("journal 1\ndeferred r1  a\nend\n", 2, Code::J6),
    ("journal 1\ndeferred r1 65\nend\n", 2, Code::J6),
    ("journal 1\nreported r1 01\nend\n", 2, Code::J6),
    ("journal 1\nreported r1 +1\nend\n", 2, Code::J6),
    (
        "journal 1\nreported zz 1000000000000000\nend\n",
        2,
        Code::J6,
    ),
    ("journal 1\nwithdrawn r1 1000001 a\nend\n", 2, Code::J6),
    ("journal 1\nmerged zz 1 a b\nend\n", 2, Code::J7),
    ("journal 1\nmerged a 1 a b\nend\n", 2, Code::J7),
    ("journal 1\nmerged r1 1 a r1\nend\n", 2, Code::J7),
    ("journal 1\ndeferred r1 1 a a\nend\n", 2, Code::J7),
    ("journal 1\nreported r1 1\ncanceled q\nend\n", 3, Code::J7),
    ("", 1, Code::J9),
    ("journal 1", 1, Code::J9),
    ("journal 1\n", 2, Code::J9),
    ("journal 1\nreported r1 1\nend", 3, Code::J9),
];

#[test]
fn the_first_bad_line_is_named_with_its_least_code(rt: HostRuntime) -> Result<(), Fail> {
    let names = names(rt.alloc()).map_err(|_| "names")?;
    for (text, line, code) in BAD {
        let at = At { line, code };
        assert_eq!(rt;
            answer(rt.alloc(), &names, text),
            Err(ReadJournalRefused::Bad(at)),
            "{text}"
        );
    }
    Ok(())
}

#[test]
fn a_line_of_more_than_65536_bytes_is_too_long(rt: HostRuntime) -> Result<(), Fail> {
    let names = names(rt.alloc()).map_err(|_| "names")?;
    let mut text = Vec::new(rt.alloc());
    text.extend_from_slice(b"journal 1\nmerged r1 1")?;
    for _ in 0..32_763 {
        text.extend_from_slice(b" a")?;
    }
    text.extend_from_slice(b"\nend\n")?;
    assert!(rt; names.count_robots() <= 64);
    assert!(rt; text.len() < 100_000);
    let at = At {
        line: 2,
        code: Code::J1,
    };
    let read = read_journal(rt.alloc(), &text, &names).map(|front| front.entries.len());
    assert_eq!(rt; read, Err(ReadJournalRefused::Bad(at)));
    Ok(())
}
