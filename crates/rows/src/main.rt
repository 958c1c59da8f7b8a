//! Runs the tool over files in memory. Each line of the input is a case, and the line of the output in its place says what
//! came of it. An empty line and one that begins with `#` are copied, so that the output reads by itself.
//!
//! A case is a command line and then parts, each after a `;`:
//!
//! - `NAME=BYTES`: a file that is there before, with its bytes in the notation of the crate `row_text`.
//! - `then WORDS`: another command line, over the files as the one before left them.
//! - `failing files N,N`: of the calls to the files, reads and writes together and counted from 0, those that fail.
//! - `failing out N,N` and `failing err N,N`: the same of the calls to the standard output and to the standard error, which
//!   each command line has for itself.
//!
//! What comes of a command line is `STATUS; out TEXT; err TEXT; NAME=BYTES`: its status, what it wrote to each of the two
//! where that is anything, and each file that is new or has other bytes. In a text a line feed is `\n` and a backslash `\\`.
//!
//! The line `errors` reports what the errors of the devices, of a draft and of the tool show.
#![tactic(auto)]

mod errors;
mod row;
mod run;

use anyhow::Result;
use std::alloc::Global;
use std::io;

// What comes of a case.
fn told(alloc: Global, line: &str) -> Result<String> {
    if line == "errors" {
        return errors::shown(alloc);
    }
    run::outcome(alloc, line)
}

fn main(rt: HostRuntime) -> io::Result<()> {
    for line in rt.lines(rt.alloc()) {
        let line = line?;
        if line.is_empty() || line.starts_with('#') {
            println!(rt; "{line}")?;
            continue;
        }
        match told(rt.alloc(), line.as_str()) {
            Ok(text) => println!(rt; "{text}")?,
            Err(error) => println!(rt; "no case: {error:#}")?,
        }
    }
    Ok(())
}
