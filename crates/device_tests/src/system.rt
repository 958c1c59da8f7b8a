//! Adapters over the system: what is written is read back, and what fails is counted.
use crate::view::seen;
use outside::{DiskFiles, Failed, Files, IoFault, ReaderSource, Sink, Source, WriterSink, put_all};
use std::fs::{self, File};
use std::io::Cursor;
use std::test::Fail;

#[test]
fn disk_files_are_read_back(rt: HostRuntime) -> Result<(), Fail> {
    let alloc = rt.alloc();
    let name = "device_tests_disk_files";
    let mut files = DiskFiles::begin(&rt);
    files.write(alloc, name, b"longer")?;
    files.write(alloc, name, b"four")?;
    for (name, limit, want) in [
        (name, 4, Ok(b"four".as_slice())),
        (name, 3, Err(Some(4))),
        ("no_such_file", 9, Err(None)),
        ("", 9, Err(None)),
    ] {
        let got = files.read(alloc, name, limit)?;
        assert_eq!(rt; seen(&got), want, "{name} at {limit}");
    }
    fs::remove_file(&rt, name)?;
    assert_eq!(rt; (files.read_faults(), files.write_faults()), (0, 0));
    assert_eq!(rt; files.read(alloc, "/dev", 9).err(), Some(IoFault::Failed));
    assert_eq!(rt; (files.read_faults(), files.write_faults()), (1, 0));
    let full = files.write(alloc, "/dev/full", b"four");
    assert_eq!(rt; full, Err(IoFault::Failed));
    assert_eq!(rt; (files.read_faults(), files.write_faults()), (1, 1));
    Ok(())
}

#[test]
fn a_writer_that_is_full_and_a_reader_of_a_folder_fail(rt: HostRuntime) -> Result<(), Fail> {
    let mut sink = WriterSink::begin(Cursor::new([0u8; 4]));
    assert_eq!(rt; put_all(&mut sink, b"abc"), Ok(()));
    assert_eq!(rt; sink.write(b"def"), Ok(1));
    assert_eq!(rt; sink.write(b""), Ok(0));
    assert_eq!(rt; put_all(&mut sink, b"ef"), Err(IoFault::Failed));
    assert_eq!(rt; sink.faults(), 1);
    let mut device = WriterSink::begin(File::create(&rt, "/dev/full")?);
    assert_eq!(rt; device.write(b"a"), Err(IoFault::Failed));
    assert_eq!(rt; device.faults(), 1);
    let mut room = [0u8; 2];
    let mut source = ReaderSource::begin(b"abc".as_slice());
    for want in [2, 1, 0] {
        assert_eq!(rt; source.read(&mut room), Ok(want));
    }
    assert_eq!(rt; room, *b"cb");
    let mut folder = ReaderSource::begin(File::open(&rt, "/dev")?);
    assert_eq!(rt; folder.read(&mut room), Err(Failed));
    assert_eq!(rt; folder.faults(), 1);
    Ok(())
}
