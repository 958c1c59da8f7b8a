//! The program: makes the real devices, and ends with the tool's status.
#![tactic(auto)]

use collector::run_tool;
use outside::{DiskFiles, Sink, SystemSeeds, WriterSink, put_all};
use std::alloc::AllocError;
use std::env;
use std::io::ErrorKind;
use std::process::ExitCode;

const BAD_WORDS: u8 = 1;

const NO_MEMORY: u8 = 7;

fn main(rt: HostRuntime) -> ExitCode {
    let mut err = WriterSink::begin(rt.stderr());
    let args = match env::args(&rt) {
        Ok(args) => args,
        Err(error) if error.kind() == ErrorKind::OutOfMemory => return no_memory(&mut err),
        Err(_) => return bad_words(&mut err),
    };
    let words: Result<Vec<String>, AllocError> = args.skip(1).collect(rt.alloc());
    let Ok(words) = words else {
        return no_memory(&mut err);
    };
    let mut files = DiskFiles::begin(&rt);
    let mut out = WriterSink::begin(rt.stdout());
    let status = run_tool(
        rt.alloc(),
        &words,
        &mut files,
        &mut out,
        &mut err,
        &mut SystemSeeds::begin(&rt),
    );
    ExitCode::from(status)
}

// The command line cannot be had, since one of its words isn't UTF-8.
fn bad_words<E: Sink>(err: &mut E) -> ExitCode {
    let _ = put_all(err, b"otelprof: bad words\n");
    ExitCode::from(BAD_WORDS)
}

fn no_memory<E: Sink>(err: &mut E) -> ExitCode {
    let _ = put_all(err, b"no memory\n");
    ExitCode::from(NO_MEMORY)
}
