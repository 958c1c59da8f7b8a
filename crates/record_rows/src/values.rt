//! AnyValues.
ghost use Rattle.std.specs.Prelude.{◌<◌, ◌^◌, length};
ghost use Rattle.schema.specs.AnySpell.{any_text};
ghost use Rattle.any_value.specs.Views.{any_view};

use crate::fault::CaseFault;
use crate::payloads::{Payload, Payloads, shown};
use any_value::{
    Value, decode_value, encode_value, is_same_value, put_value, value_len, value_row_len,
};
use pb_wire::{Blob, Pieces};
use std::alloc::Global;
use std::hash::{DefaultHasher, Hash, Hasher};

/// The canonical payload of the value of the payloads and that of its row as field 2, with the lengths that the code reports; or
/// the first fault.
pub fn told(alloc: Global, payloads: &Payloads) -> Result<String, CaseFault> {
    let pieces = payloads.pieces(alloc)?;
    match decode_value(alloc, &pieces, 1) {
        Ok(value) => written(alloc, &value),
        Err(fault) => Ok(format!(in alloc; "{fault}")?),
    }
}

fn written(alloc: Global, value: &Value<'_>) -> Result<String, CaseFault>
    requires { length (any_text (any_view value.now)) < 2 ^ 62 }
{
    let mut payload = Blob::begin(alloc);
    encode_value(value, &mut payload)?;
    let payload = shown(alloc, payload.as_slice())?;
    let row = row_told(alloc, value)?;
    let len = value_len(value);
    Ok(format!(in alloc; "{payload}, {len} bytes; row {row}")?)
}

fn row_told(alloc: Global, value: &Value<'_>) -> Result<String, CaseFault>
    requires { length (any_text (any_view value.now)) < 2 ^ 62 }
{
    let mut row = Blob::begin(alloc);
    put_value(&mut row, 2, value)?;
    let bytes = shown(alloc, row.as_slice())?;
    let len = value_row_len(2, value);
    Ok(format!(in alloc; "{bytes}, {len} bytes")?)
}

/// Whether a copy of the value of the payloads is equal to it.
pub fn copy_told(alloc: Global, payloads: &Payloads) -> Result<String, CaseFault> {
    let pieces = payloads.pieces(alloc)?;
    match decode_value(alloc, &pieces, 1) {
        Ok(value) => {
            let copy = value.duplicate(alloc)?;
            compared(alloc, &value, &copy)
        }
        Err(fault) => Ok(format!(in alloc; "{fault}")?),
    }
}

/// Whether the values of two payloads are equal.
pub fn equal_told(alloc: Global, data: &str) -> Result<String, CaseFault> {
    let (one, other) = data.split_once(' ').ok_or(CaseFault::Missing)?;
    let one = Payload::of(alloc, one)?;
    let other = Payload::of(alloc, other)?;
    equal(alloc, &one, &other)
}

fn equal<'a>(alloc: Global, one: &'a Payload, other: &'a Payload) -> Result<String, CaseFault> {
    let one = value_of(alloc, one)?;
    let other = value_of(alloc, other)?;
    compared(alloc, &one, &other)
}

// The value of one payload.
fn value_of<'a>(alloc: Global, payload: &'a Payload) -> Result<Value<'a>, CaseFault> {
    let mut pieces = Pieces::begin(alloc);
    pieces.add(payload.piece())?;
    Ok(decode_value(alloc, &pieces, 1)?)
}

// Whether two values are equal, and if so whether their hashes are.
fn compared<'a>(alloc: Global, one: &Value<'a>, other: &Value<'a>) -> Result<String, CaseFault> {
    let text = if !is_same_value(one, other) {
        "different"
    } else if hash_of(one) != hash_of(other) {
        "equal, with different hashes"
    } else {
        "equal"
    };
    Ok(String::from_str(alloc, text)?)
}

fn hash_of(value: &Value<'_>) -> u64 {
    let mut state = DefaultHasher::new();
    value.hash(&mut state);
    state.finish()
}
