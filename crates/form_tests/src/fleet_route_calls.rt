// The texts of least routes, and of what is refused.
use fleet_route::refused::{Refusal, Untold};
use fleet_route::route::route;
use site_lines::fault::{At, Code};
use std::test::Fail;

const DIAMOND: &[u8] = b"fleet 1\ncell a b c d\narea ends a d\ncrossing x b\n\
link a b 1\nlink a c 1\nlink b d 1\nlink c d 1\nrobot r1 a\nend\n";

#[test]
fn the_least_route_is_told_with_its_labels(rt: HostRuntime) -> Result<(), Fail> {
    let rows: [(&[u8], &[u8], &[u8]); 4] = [
        (
            b"a",
            b"d",
            b"route 2 a b d\nlabel a 2\nlabel b 1\nlabel c 1\nlabel d 0\n",
        ),
        (b"a", b"a", b"route 0 a\nlabel a 0\n"),
        (
            b"c",
            b"ends",
            b"route 1 c d\nlabel a 0\nlabel b 1\nlabel c 1\nlabel d 0\n",
        ),
        (b"d", b"a", b"unreachable\n"),
    ];
    for (from, to, due) in rows {
        let text = match route(rt.alloc(), DIAMOND, from, to) {
            Ok(text) => text,
            Err(_) => Vec::new(rt.alloc()),
        };
        assert!(rt; text.as_slice() == due);
    }
    Ok(())
}

#[test]
fn the_scenario_is_judged_before_the_words(rt: HostRuntime) {
    let line = Refusal::Line(At {
        line: 2,
        code: Code::S10,
    });
    let rows: [(&[u8], &[u8], &[u8], Refusal); 4] = [
        (b"fleet 1\ncell a a\n", b"zz", b"zz", line),
        (DIAMOND, b"x", b"zz", Refusal::UnknownFrom),
        (DIAMOND, b"ends", b"a", Refusal::UnknownFrom),
        (DIAMOND, b"a", b"r1", Refusal::UnknownTo),
    ];
    for (input, from, to, refusal) in rows {
        let answer = route(rt.alloc(), input, from, to);
        assert!(rt; answer.err() == Some(Untold::Refused(refusal)));
    }
}
