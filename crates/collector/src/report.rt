//! Reports why a run ended.
ghost use Rattle.std.specs.Prelude.{◌≡◌, ◌≢◌, ◌<◌};
ghost use Rattle.collector.specs.Lines.{status_of, line_of, IsStatus};
ghost use Rattle.collector.specs.FaultNames.{TookLine};

use crate::Stop;
use outside::{IoFault, Sink, put_all};
use std::alloc::Global;

const NO_MEMORY: u8 = 7;

/// Writes the line of the stop to `err`, and answers the status. A fault of `err` changes no status. If memory runs out on the
/// way, the status is 7.
pub fn tell<E: Sink>(alloc: Global, stop: &Stop, err: &mut E) -> u8
    ensures status { result ≢ 7 → result ≡ status_of stop.now }
    ensures listed { IsStatus result }
    ensures stopped { 0 < result }
    ensures line { result ≢ 7 → TookLine E.Sink err.old err.new (line_of stop.now) }
{
    let Ok(line) = stop.line(alloc) else {
        return tell_no_memory(err);
    };
    match put_all(err, line.as_bytes()) {
        Err(IoFault::NoMemory) => tell_no_memory(err),
        _ => stop.status(),
    }
}

// Writes the line of a run that is out of memory, which takes none.
fn tell_no_memory<E: Sink>(err: &mut E) -> u8
    ensures { result ≡ 7 }
{
    let _ = put_all(err, b"no memory\n");
    NO_MEMORY
}
