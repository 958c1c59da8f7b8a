//! Stops of the tool that no command line of a row leads to.
use collector::{Stop, ToolRefusal, tell};
use outside::MemSink;
use std::alloc::Global;
use std::test::Fail;

// The status that `tell` answers at a stop, and the line that it writes.
fn told(alloc: Global, stop: Stop) -> Result<(u8, String), Fail> {
    let mut err = MemSink::begin(alloc, Vec::new(alloc));
    let status = tell(alloc, &stop, &mut err);
    Ok((status, String::from_utf8(err.bytes().to_vec(alloc)?)?))
}

#[test]
fn other_stops(rt: HostRuntime) -> Result<(), Fail> {
    let alloc = rt.alloc();
    let limit = ToolRefusal::Limit { size: 40_000_056 };
    let (status, line) = told(alloc, Stop::Refused(limit))?;
    assert_eq!(rt; status, 5);
    assert_eq!(rt; line.as_str(), "output limit: 40000056 bytes\n");
    let (status, line) = told(alloc, Stop::NoMemory)?;
    assert_eq!(rt; status, 7);
    assert_eq!(rt; line.as_str(), "no memory\n");
    Ok(())
}
