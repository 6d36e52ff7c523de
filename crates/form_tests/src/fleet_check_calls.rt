// The canonical text of a scenario, and its first bad line.
use fleet_check::check::check;
use form_base::{Ended, Fault, Stop};
use site_lines::fault::{At, Code};
use std::test::Fail;

#[test]
fn a_scenario_is_told_in_its_canonical_text(rt: HostRuntime) -> Result<(), Fail> {
    let input = b"fleet 1 # one\n\ncell  a\nrobot r1 a\r\nend";
    let report = check(rt.alloc(), input).map_err(|_| "refused")?;
    assert!(rt; report.ended == Ended::Done);
    assert!(rt; report.text.as_slice() == b"fleet 1\ncell a\nrobot r1 a\nend\n".as_slice());
    Ok(())
}

#[test]
fn the_first_bad_line_is_told(rt: HostRuntime) {
    let line = Fault::Line(At {
        line: 3,
        code: Code::S10,
    });
    let answer = check(rt.alloc(), b"fleet 1\ncell a\ncell a\n");
    assert!(rt; answer.err() == Some(Stop::Refused(line)));
}
