// The texts of assignments.
use fleet_assign::form::assign_form;
use form_base::{Ended, Fault, Stop};
use site_lines::fault::{At, Code};
use std::test::Fail;

#[test]
fn an_assignment_is_told(rt: HostRuntime) -> Result<(), Fail> {
    let rows: [(&[u8], &[u8]); 4] = [
        (
            b"fleet 1\ncell a b c d\nlane a b 1\nlane b c 1\nlane d b 1\nrobot r1 a\nrobot r2 b\n\
mission r1\nvisit c\ndone\nmission r2\nvisit a\ndone\nend\n",
            b"total 1\nrobot r1 a 0\nrobot r2 c 1\nrow r1 0\nrow r2 1\ncolumn 0 0\ncolumn 1 0\n",
        ),
        (
            b"fleet 1\ncell a b c d\nlane a b 1\nlane b c 1\nlane d b 1\nrobot r1 a\nrobot r2 d\n\
mission r1\nvisit c\ndone\nmission r2\nvisit b\ndone\nend\n",
            b"total 3\nrobot r1 c 2\nrobot r2 b 1\nrow r1 0\nrow r2 0\ncolumn 0 2\ncolumn 1 1\n",
        ),
        (
            b"fleet 1\ncell a b c d\nlane a b 1\nlane b c 1\nlane d b 1\nrobot r1 a\nend\n",
            b"total 0\nrobot r1 idle 0\nrow r1 0\ncolumn 0 0\n",
        ),
        (
            b"fleet 1\ncell a b c d\narea far c d\nlink a b 1\nrobot r1 a\nrobot r2 b\n\
mission r2\nvisit far\nvisit a\ndone\nend\n",
            b"total 1000000000000\nrobot r1 far none\nrobot r2 idle 0\nrow r1 0\nrow r2 0\n\
column 0 1000000000000\ncolumn 1 0\n",
        ),
    ];
    for (input, due) in rows {
        let report = assign_form(rt.alloc(), input).map_err(|_| "refused")?;
        assert!(rt; report.ended == Ended::Done);
        assert!(rt; report.text.as_slice() == due);
    }
    Ok(())
}

#[test]
fn the_first_bad_line_is_told(rt: HostRuntime) {
    let line = Fault::Line(At {
        line: 5,
        code: Code::S21,
    });
    let answer = assign_form(rt.alloc(), b"fleet 1\ncell a\nrobot r1 a\nend\nlook r1\n");
    assert!(rt; answer.err() == Some(Stop::Refused(line)));
}
