//! The kinds of cases.
use crate::fault::CaseFault;
use crate::payloads::Payloads;
use crate::{errors, messages, records, values, wire, words};
use std::alloc::Global;

/// What comes of the case in a line.
pub fn answer(alloc: Global, line: &str) -> Result<String, CaseFault> {
    if line.is_empty() || line.starts_with('#') {
        return Ok(String::from_str(alloc, line)?);
    }
    let (kind, data) = line.split_once(' ').unwrap_or((line, ""));
    match kind {
        "message" => messages::told(alloc, data),
        "plan" => words::told(alloc, data),
        "error" => errors::told(alloc, data),
        "memory" => errors::memory_told(alloc),
        "varint" => wire::varint_told(alloc, data),
        "field" => wire::field_told(alloc, data),
        "value" => values::told(alloc, &Payloads::of(alloc, data)?),
        "copy" => values::copy_told(alloc, &Payloads::of(alloc, data)?),
        "equal" => values::equal_told(alloc, data),
        _ => records::told(alloc, kind, &Payloads::of(alloc, data)?),
    }
}
