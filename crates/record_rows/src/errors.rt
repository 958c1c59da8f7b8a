//! What errors show.
use crate::fault::CaseFault;
use crate::payloads::bytes_of_word;
use commands::WordRefusal;
use otlp_msg::{Refusal, read_message};
use pb_wire::{NoMemory, ReadFault};
use std::alloc::Global;

/// What the refusal of a message shows.
pub fn told(alloc: Global, word: &str) -> Result<String, CaseFault> {
    let body = bytes_of_word(alloc, word)?;
    match read_message(alloc, &body) {
        Ok(_) => Ok(String::from_str(alloc, "accepted")?),
        Err(refusal) => Ok(format!(in alloc; "{refusal}")?),
    }
}

/// What the errors show that say that memory ran out.
pub fn memory_told(alloc: Global) -> Result<String, CaseFault> {
    let read = ReadFault::NoMemory;
    let refusal = Refusal::NoMemory;
    let words = WordRefusal::NoMemory;
    Ok(format!(in alloc; "{NoMemory}; {read}; {refusal}; {words}")?)
}
