//! Single fields and numbers.
use crate::fault::CaseFault;
use crate::payloads::{Payload, shown};
use pb_wire::{
    Blob, Field, Payload as FieldPayload, next_field, put_field, put_varint, varint_len,
};
use std::alloc::{AllocError, Global};

/// The shortest varint of a number, and the length that the code reports for it.
pub fn varint_told(alloc: Global, data: &str) -> Result<String, CaseFault> {
    let number = data.parse()?;
    let mut out = Blob::begin(alloc);
    put_varint(&mut out, number)?;
    let bytes = shown(alloc, out.as_slice())?;
    let len = varint_len(number);
    Ok(format!(in alloc; "{bytes}, {len} bytes")?)
}

/// The field of a body that begins so many bytes after the body's beginning.
pub fn field_told(alloc: Global, data: &str) -> Result<String, CaseFault> {
    let (at, body) = data.split_once(' ').ok_or(CaseFault::Missing)?;
    let at: usize = at.parse()?;
    let body = Payload::of(alloc, body)?;
    if at > body.bytes.len() {
        return Err(CaseFault::Place);
    }
    match next_field(&body.bytes, at, body.base as u64) {
        Ok(None) => Ok(String::from_str(alloc, "end")?),
        Ok(Some((field, next))) => found(alloc, &field, next),
        Err(fault) => Ok(format!(in alloc; "{fault}")?),
    }
}

// A field, where the next begins, and the field as it is put.
fn found(alloc: Global, field: &Field<'_>, next: usize) -> Result<String, CaseFault> {
    let number = field.number;
    if number < 1 || number > 536_870_911 {
        return Err(CaseFault::Place);
    }
    let mut out = Blob::begin(alloc);
    put_field(&mut out, number, &field.payload)?;
    let written = shown(alloc, out.as_slice())?;
    let payload = payload_told(alloc, &field.payload)?;
    let at = field.at;
    let end = field.end;
    Ok(format!(in alloc; "number {number}, {at} to {end}, {payload}, next {next}, put {written}")?)
}

fn payload_told(alloc: Global, payload: &FieldPayload<'_>) -> Result<String, AllocError> {
    match payload {
        FieldPayload::Varint(number) => format!(in alloc; "varint {number}"),
        FieldPayload::Fixed64(bytes) => {
            format!(in alloc; "eight bytes {}", shown(alloc, bytes)?)
        }
        FieldPayload::Bytes(bytes) => format!(in alloc; "bytes {}", shown(alloc, bytes)?),
        FieldPayload::Fixed32(bytes) => format!(in alloc; "four bytes {}", shown(alloc, bytes)?),
    }
}
