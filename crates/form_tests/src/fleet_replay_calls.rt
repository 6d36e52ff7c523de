//! Replays of two robots that cross a junction one after the other.

use fleet_replay::refused::{ReplayFault, TextRefused};
use fleet_replay::replay::replay_text;
use site_lines::fault::{At, Code};
use std::alloc::Global;
use std::test::Fail;

const SCENARIO: &str =
    "fleet 1\ncell a b c d\nlane a b 1\nlane b c 1\nlane d b 1\nrobot r1 a\nrobot r2 d\nend\n";

const JOURNAL: &str = "journal 1\nmerged r1 1 a b c\nmerged r2 7 d b\nreported r1 1\nend\n";

const STATE: &str =
    "state 1\nentries 3\nnext 10\nrobot r1 at a end c\nholds a b\nevent 2 move a b\nevent 3 release a\nevent 4 acquire c\nevent 5 move b c\nevent 6 release b\nrobot r2 at d end b\nholds d\nevent 7 acquire b\nevent 8 move d b\nevent 9 release d\nend\n";

// What is made of a journal and a tail behind the scenario.
fn replayed(alloc: Global, journal: &str, tail: &str) -> Result<Vec<u8>, TextRefused> {
    let mut text = Vec::new(alloc);
    for part in [SCENARIO, journal, tail] {
        if text.extend_from_slice(part.as_bytes()).is_err() {
            return Err(TextRefused::NoMemory);
        }
    }
    if text.len() > 65_536 {
        return Err(TextRefused::NoMemory);
    }
    replay_text(alloc, &text)
}

// The fault of a journal and a tail behind the scenario.
fn fault(alloc: Global, journal: &str, tail: &str) -> Option<ReplayFault> {
    match replayed(alloc, journal, tail) {
        Err(TextRefused::Fault(fault)) => Some(fault),
        _ => None,
    }
}

fn line(line: u32, code: Code) -> Option<ReplayFault> {
    Some(ReplayFault::Line(At { line, code }))
}

#[test]
fn the_state_is_printed(rt: HostRuntime) -> Result<(), Fail> {
    let alone = replayed(rt.alloc(), JOURNAL, "").map_err(|_| "refused")?;
    assert!(rt; alone.as_slice() == STATE.as_bytes());
    let whole = replayed(rt.alloc(), JOURNAL, STATE).map_err(|_| "refused")?;
    assert!(rt; whole.as_slice() == STATE.as_bytes());
    Ok(())
}

#[test]
fn faults_are_named(rt: HostRuntime) -> Result<(), Fail> {
    let alloc = rt.alloc();
    assert_eq!(rt;
        fault(alloc, "journal 1\nmerged r1 2 a b c\nend\n", ""),
        Some(ReplayFault::Entry(1))
    );
    assert_eq!(rt;
        fault(alloc, "journal 1\nreported r1 01\nend\n", "x"),
        line(10, Code::J6)
    );
    assert_eq!(rt; fault(alloc, "journal 1\nend", ""), line(10, Code::J9));
    assert_eq!(rt;
        fault(alloc, JOURNAL, "state 1\nentries 4\n"),
        line(15, Code::T1)
    );
    assert_eq!(rt; fault(alloc, JOURNAL, "state 1\n"), line(15, Code::T1));
    assert_eq!(rt; fault(alloc, JOURNAL, "state 1"), line(14, Code::T1));
    Ok(())
}
