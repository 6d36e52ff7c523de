// What no clause says: that the calls succeed where memory is ample, and what they print.
use crate::{
    MemSink, MemSource, StdSink, StdSource, SureSink, SureSource, Taken, WriteFault, read_all,
    write_text,
};
use std::io;
use std::test::Fail;

const TEXT: &[u8] = b"link dock_1 dock_2 cost 7\nrobot ant at dock_1\n";

#[test]
fn reads_and_writes_in_steps(rt: HostRuntime) -> Result<(), Fail> {
    for most in [1, 7, 4_096] {
        assert!(rt; most >= 1);
        let mut source = SureSource::new(Vec::from_slice(rt.alloc(), TEXT)?, most);
        let bytes = read_all(rt.alloc(), &mut source, 1_000)?;
        assert_eq!(rt; bytes.as_slice(), TEXT, "read {most} at a time");

        let mut sink = SureSink::new(rt.alloc(), most);
        write_text(&mut sink, TEXT)?;
        assert_eq!(rt; sink.written(), TEXT, "written {most} at a time");
    }
    Ok(())
}

#[test]
fn keeps_to_the_limit(rt: HostRuntime) -> Result<(), Fail> {
    let mut fits = SureSource::new(Vec::from_slice(rt.alloc(), b"0123456789")?, 4);
    let bytes = read_all(rt.alloc(), &mut fits, 10)?;
    assert_eq!(rt; bytes.as_slice(), b"0123456789".as_slice());

    let mut longer = SureSource::new(Vec::from_slice(rt.alloc(), b"0123456789ab")?, 4);
    assert_eq!(rt;
        read_all(rt.alloc(), &mut longer, 10).err(),
        Some(Taken::TooBig)
    );
    let rest = read_all(rt.alloc(), &mut longer, 10)?;
    assert_eq!(rt; rest.as_slice(), b"b".as_slice());

    let mut nothing = SureSource::new(Vec::new(rt.alloc()), 4);
    assert_eq!(rt; read_all(rt.alloc(), &mut nothing, 0)?.len(), 0);
    Ok(())
}

#[test]
fn reports_a_read_that_fails(rt: HostRuntime) -> Result<(), Fail> {
    let bytes = Vec::from_slice(rt.alloc(), b"first, second, third.")?;
    let mut source = MemSource::new(bytes, 7, vec![in rt.alloc(); 3]?);
    assert_eq!(rt;
        read_all(rt.alloc(), &mut source, 100).err(),
        Some(Taken::ReadFault)
    );
    let rest = read_all(rt.alloc(), &mut source, 100)?;
    assert_eq!(rt; rest.as_slice(), b" third.".as_slice());
    Ok(())
}

#[test]
fn reports_a_write_that_fails(rt: HostRuntime) -> Result<(), Fail> {
    let mut sink = MemSink::new(rt.alloc(), 4, vec![in rt.alloc(); 2]?);
    assert_eq!(rt; write_text(&mut sink, b"0123456789"), Err(WriteFault));
    assert_eq!(rt; sink.written(), b"0123".as_slice());
    write_text(&mut sink, b"abcdef")?;
    assert_eq!(rt; sink.written(), b"0123abcdef".as_slice());
    Ok(())
}

// 200,000 bytes are three pieces of 65,536 and one of 3,392, and then the end: five reads.
#[test]
fn reads_large_pieces(rt: HostRuntime) -> Result<(), Fail> {
    let bytes = vec![in rt.alloc(); 7; 200_000]?;
    let mut source = MemSource::new(bytes, 1_000_000, vec![in rt.alloc(); 6]?);
    assert_eq!(rt;
        read_all(rt.alloc(), &mut source, 4_000_000_000)?.len(),
        200_000
    );

    let bytes = vec![in rt.alloc(); 7; 200_000]?;
    let mut source = MemSource::new(bytes, 1_000_000, vec![in rt.alloc(); 5]?);
    assert_eq!(rt;
        read_all(rt.alloc(), &mut source, 4_000_000_000).err(),
        Some(Taken::ReadFault)
    );
    Ok(())
}

#[test]
fn prints_its_errors(rt: HostRuntime) -> Result<(), Fail> {
    for (taken, text) in [
        (Taken::ReadFault, "a read failed"),
        (Taken::TooBig, "more bytes came than the limit"),
        (Taken::NoMemory, "out of memory"),
    ] {
        assert_eq!(rt; format!(in rt.alloc(); "{taken}")?.as_str(), text);
    }
    assert_eq!(rt;
        format!(in rt.alloc(); "{WriteFault}")?.as_str(),
        "a write failed"
    );
    Ok(())
}

// A writer that takes nothing, as that of a full disk.
#[derive(Drop)]
struct FullDisk;

impl io::Write for FullDisk {
    fn write(&mut self, _piece: &[u8]) -> io::Result<usize> {
        Ok(0)
    }

    fn flush(&mut self) -> io::Result<()> {
        Ok(())
    }
}

#[test]
fn reads_and_writes_by_readers_and_writers(rt: HostRuntime) -> Result<(), Fail> {
    let mut source = StdSource::new(TEXT);
    let bytes = read_all(rt.alloc(), &mut source, 1_000)?;
    assert_eq!(rt; bytes.as_slice(), TEXT);

    write_text(&mut StdSink::new(Vec::new(rt.alloc())), TEXT)?;
    assert_eq!(rt;
        write_text(&mut StdSink::new(FullDisk), TEXT),
        Err(WriteFault)
    );
    write_text(&mut StdSink::new(FullDisk), b"")?;
    Ok(())
}
