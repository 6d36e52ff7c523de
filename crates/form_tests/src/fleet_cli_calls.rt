// The call over sources and sinks in memory.
use fleet_cli::fleet;
use fleet_io::{MemSink, MemSource, SureSink, SureSource};
use std::alloc::Global;
use std::process::Abort;
use std::test::Fail;

const USAGE: &[u8] = b"usage: fleet check | route FROM TO | script | replay | assign\n";

const ONE_STEP: &[u8] = b"fleet 1\ncell a b\nlane a b 1\nrobot r1 a\nend\npropose r1 a b\n";

// Checks the status of the words and an input, and the whole output.
fn check_told(
    rt: &impl Abort,
    alloc: Global,
    words: &[&str],
    input: &[u8],
    status: u8,
    text: &[u8],
) -> Result<(), Fail> {
    let mut source = SureSource::new(input.to_vec(alloc)?, 3);
    let mut sink = SureSink::new(alloc, 5);
    assert_eq!(rt; fleet(alloc, words, &mut source, &mut sink), status);
    assert!(rt; sink.written() == text);
    Ok(())
}

#[test]
fn words_that_are_no_form_are_told_the_usage(rt: HostRuntime) -> Result<(), Fail> {
    let rows: [&[&str]; 5] = [&[], &["check", "now"], &["Check"], &["route", "a"], &[""]];
    for words in rows {
        let mut source = SureSource::new(b"fleet 1\n".to_vec(rt.alloc())?, 3);
        let mut sink = SureSink::new(rt.alloc(), 5);
        assert_eq!(rt; fleet(rt.alloc(), words, &mut source, &mut sink), 2);
        assert!(rt; sink.written() == USAGE);
    }
    Ok(())
}

#[test]
fn check_tells_the_canonical_text_or_the_fault(rt: HostRuntime) -> Result<(), Fail> {
    let rows: [(&[u8], u8, &[u8]); 4] = [
        (
            b"fleet 1 # one\n\ncell  a\nrobot r1 a\r\nend",
            0,
            b"fleet 1\ncell a\nrobot r1 a\nend\n",
        ),
        (b"", 3, b"refused line 1 S22\n"),
        (b"fleet 1\ncell a\nrobot r1 a\n", 3, b"refused line 4 S22\n"),
        (b"fleet 1\ncell a\ncell a\n", 3, b"refused line 3 S10\n"),
    ];
    for (input, status, text) in rows {
        check_told(&rt, rt.alloc(), &["check"], input, status, text)?;
    }
    Ok(())
}

#[test]
fn script_tells_answers_journal_and_state_or_the_fault(rt: HostRuntime) -> Result<(), Fail> {
    let rows: [(&[u8], u8, &[u8]); 2] = [
        (
            ONE_STEP,
            0,
            b"merged 1 3\njournal 1\nmerged r1 1 a b\nend\nstate 1\nentries 1\nnext 4\n\
robot r1 at a end b\nholds a\nevent 1 acquire b\nevent 2 move a b\nevent 3 release a\nend\n",
        ),
        (
            b"fleet 1\ncell a\nrobot r1 a\nend\nlook r1\nlook\n",
            3,
            b"refused line 6 C4\n",
        ),
    ];
    for (input, status, text) in rows {
        check_told(&rt, rt.alloc(), &["script"], input, status, text)?;
    }
    Ok(())
}

#[test]
fn route_tells_a_least_route_or_the_fault(rt: HostRuntime) -> Result<(), Fail> {
    let rows: [(&str, &str, u8, &[u8]); 4] = [
        ("a", "b", 0, b"route 1 a b\nlabel a 1\nlabel b 0\n"),
        ("b", "a", 0, b"unreachable\n"),
        ("r1", "r1", 3, b"refused from\n"),
        ("a", "r1", 3, b"refused to\n"),
    ];
    for (from, to, status, text) in rows {
        let input = b"fleet 1\ncell a b\nlink a b 1\nrobot r1 a\nend\n";
        check_told(&rt, rt.alloc(), &["route", from, to], input, status, text)?;
    }
    Ok(())
}

#[test]
fn replay_tells_the_state_or_the_fault(rt: HostRuntime) -> Result<(), Fail> {
    let rows: [(&[u8], u8, &[u8]); 4] = [
        (
            b"fleet 1\ncell a b\nlane a b 1\nrobot r1 a\nend\njournal 1\nend\n",
            0,
            b"state 1\nentries 0\nnext 1\nrobot r1 at a end a\nholds a\nend\n",
        ),
        (
            b"fleet 1\ncell a b\nlane a b 1\nrobot r1 a\nend\njournal 1\ncanceled r1\nend\n",
            3,
            b"refused entry 1\n",
        ),
        (
            b"fleet 1\ncell a\nrobot r1 a\nend\njournal 1\nend",
            3,
            b"refused line 6 J9\n",
        ),
        (
            b"fleet 1\ncell a\nrobot r1 a\nend\njournal 1\nend\nstate 2\n",
            3,
            b"refused line 7 T1\n",
        ),
    ];
    for (input, status, text) in rows {
        check_told(&rt, rt.alloc(), &["replay"], input, status, text)?;
    }
    Ok(())
}

#[test]
fn assign_tells_the_assignment_or_the_fault(rt: HostRuntime) -> Result<(), Fail> {
    let rows: [(&[u8], u8, &[u8]); 2] = [
        (
            b"fleet 1\ncell a b\nlane a b 1\nrobot r1 a\nmission r1\nvisit b\ndone\nend\n",
            0,
            b"total 1\nrobot r1 b 1\nrow r1 0\ncolumn 0 1\n",
        ),
        (ONE_STEP, 3, b"refused line 6 S21\n"),
    ];
    for (input, status, text) in rows {
        check_told(&rt, rt.alloc(), &["assign"], input, status, text)?;
    }
    Ok(())
}

#[test]
fn more_bytes_than_the_limit_are_too_big(rt: HostRuntime) -> Result<(), Fail> {
    let mut source = SureSource::new(vec![in rt.alloc(); 0u8; 4_194_305]?, 65_536);
    let mut sink = SureSink::new(rt.alloc(), 5);
    let words: &[&str] = &["check"];
    assert_eq!(rt; fleet(rt.alloc(), words, &mut source, &mut sink), 3);
    assert!(rt; sink.written() == b"refused too big\n".as_slice());
    Ok(())
}

#[test]
fn a_read_that_fails_writes_nothing(rt: HostRuntime) -> Result<(), Fail> {
    let bytes = ONE_STEP.to_vec(rt.alloc())?;
    let mut source = MemSource::new(bytes, 2, vec![in rt.alloc(); 1]?);
    let mut sink = MemSink::new(rt.alloc(), 3, Vec::new(rt.alloc()));
    let words: &[&str] = &["script"];
    assert_eq!(rt; fleet(rt.alloc(), words, &mut source, &mut sink), 5);
    assert!(rt; sink.written().is_empty());
    Ok(())
}

#[test]
fn a_write_that_fails_leaves_a_prefix(rt: HostRuntime) -> Result<(), Fail> {
    let rows: [(&str, &[u8]); 2] = [("script", b"merg"), ("drill", b"usag")];
    for (word, begun) in rows {
        let mut source = SureSource::new(ONE_STEP.to_vec(rt.alloc())?, 1);
        let mut sink = MemSink::new(rt.alloc(), 4, vec![in rt.alloc(); 2]?);
        let words: &[&str] = &[word];
        assert_eq!(rt; fleet(rt.alloc(), words, &mut source, &mut sink), 6);
        assert!(rt; sink.written() == begun);
    }
    Ok(())
}
