// Inputs, replies and what is written of them.
use fleet_io::{MemSink, SureSink, SureSource, Taken};
use form_base::{Ended, Fault, Stop, done, finish, read_input, reply_to, too_big};
use site_lines::fault::{At, Code};
use std::test::Fail;

#[test]
fn an_input_is_read_within_its_limit(rt: HostRuntime) -> Result<(), Fail> {
    let rows: [(Option<u64>, Option<&[u8]>); 3] = [
        (None, Some(b"")),
        (Some(4), Some(b"text")),
        (Some(3), None),
    ];
    for (limit, seen) in rows {
        let mut source = SureSource::new(b"text".to_vec(rt.alloc())?, 3);
        match (read_input(rt.alloc(), &mut source, limit), seen) {
            (Ok(bytes), Some(due)) => assert!(rt; bytes.as_slice() == due),
            (Err(refused), None) => assert!(rt; refused == Taken::TooBig),
            _ => assert!(rt; false),
        }
    }
    Ok(())
}

#[test]
fn a_report_goes_out_with_its_status(rt: HostRuntime) -> Result<(), Fail> {
    let report = done(b"a text".to_vec(rt.alloc())?);
    let reply = reply_to(rt.alloc(), Ok(report)).map_err(|_| "out of memory")?;
    let mut sink = SureSink::new(rt.alloc(), 4);
    assert_eq!(rt; finish(&mut sink, &reply), 0);
    assert!(rt; sink.written() == b"a text".as_slice());
    let mut failing = MemSink::new(rt.alloc(), 4, vec![in rt.alloc(); 2]?);
    assert_eq!(rt; finish(&mut failing, &reply), 6);
    assert_eq!(rt; Ended::Undone.status(), 4);
    assert_eq!(rt; Ended::Full.status(), 7);
    Ok(())
}

#[test]
fn a_fault_is_told_by_its_line(rt: HostRuntime) -> Result<(), Fail> {
    let line = Fault::Line(At {
        line: 3,
        code: Code::S10,
    });
    let rows: [(Fault, &[u8]); 4] = [
        (line, b"refused line 3 S10\n"),
        (Fault::UnknownFrom, b"refused from\n"),
        (Fault::UnknownTo, b"refused to\n"),
        (Fault::Entry(2), b"refused entry 2\n"),
    ];
    for (fault, text) in rows {
        let answer = Err(Stop::Refused(fault));
        let reply = reply_to(rt.alloc(), answer).map_err(|_| "out of memory")?;
        assert_eq!(rt; reply.status, 3);
        assert!(rt; reply.text.as_slice() == text);
    }
    let big = too_big(rt.alloc()).map_err(|_| "out of memory")?;
    assert!(rt; big.text.as_slice() == b"refused too big\n".as_slice());
    assert!(rt; reply_to(rt.alloc(), Err(Stop::NoMemory)).is_err());
    Ok(())
}
