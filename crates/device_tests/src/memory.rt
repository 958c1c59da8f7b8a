//! Devices in memory: what is put into them is found there, and the calls that are listed fail.
use crate::view::seen;
use outside::{Failed, Files, IoFault, MemFiles, MemSink, MemSource, Sink, Source, put_all};
use std::test::Fail;

#[test]
fn files_are_read_back(rt: HostRuntime) -> Result<(), Fail> {
    let alloc = rt.alloc();
    let mut files = MemFiles::begin(alloc, [7, 8, 15].to_vec(alloc)?);
    files.write(alloc, "a", b"one")?;
    files.write(alloc, "b", b"")?;
    files.write(alloc, "a", b"four")?;
    for (name, limit, want) in [
        ("a", 4, Ok(b"four".as_slice())),
        ("a", 3, Err(Some(4))),
        ("b", 0, Ok(b"".as_slice())),
        ("c", 9, Err(None)),
    ] {
        let got = files.read(alloc, name, limit)?;
        assert_eq!(rt; seen(&got), want, "{name} at {limit}");
    }
    assert_eq!(rt; files.read(alloc, "c", 9).err(), Some(IoFault::Failed));
    assert_eq!(rt; files.write(alloc, "a", b"fives"), Err(IoFault::Failed));
    let got = files.read(alloc, "a", 9)?;
    assert_eq!(rt; seen(&got), Ok(b"four".as_slice()));
    Ok(())
}

#[test]
fn a_sink_takes_all_and_a_source_gives_all_or_they_fail(rt: HostRuntime) -> Result<(), Fail> {
    let alloc = rt.alloc();
    let mut sink = MemSink::begin(alloc, [1].to_vec(alloc)?);
    assert_eq!(rt; put_all(&mut sink, b"ab"), Ok(()));
    assert_eq!(rt; put_all(&mut sink, b"cd"), Err(IoFault::Failed));
    assert_eq!(rt; sink.write(b"ef"), Ok(2));
    assert_eq!(rt; sink.write(b""), Ok(0));
    assert_eq!(rt; sink.bytes(), b"abef".as_slice());
    let mut source = MemSource::begin(b"abcde".to_vec(alloc)?, [1].to_vec(alloc)?);
    let mut room = [0u8; 2];
    for (want, stands) in [
        (Ok(2), b"ab"),
        (Err(Failed), b"ab"),
        (Ok(2), b"cd"),
        (Ok(1), b"ed"),
        (Ok(0), b"ed"),
    ] {
        assert_eq!(rt; source.read(&mut room), want, "before {room:?}");
        assert_eq!(rt; room.as_slice(), stands.as_slice());
    }
    Ok(())
}
