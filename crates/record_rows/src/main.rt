//! Cases for what is below the tool, a line each: says of each line on the input what comes of it.
//!
//! The first word of a line is its kind, and the rest are its data. A line that begins with `#` is a title or a remark, and is
//! copied, as an empty line is. `docs/rows.md` has the kinds.
#![tactic(auto)]

mod cases;
mod errors;
mod fault;
mod messages;
mod payloads;
mod records;
mod sample_messages;
mod values;
mod wire;
mod words;

use std::io;

fn main(rt: HostRuntime) -> io::Result<()> {
    for line in rt.lines(rt.alloc()) {
        let line = line?;
        match cases::answer(rt.alloc(), line.as_str()) {
            Ok(text) => println!(rt; "{text}")?,
            Err(fault) => println!(rt; "no case: {fault}")?,
        }
    }
    Ok(())
}
