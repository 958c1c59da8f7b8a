//! The fields of a body, one after the other.
ghost use Rattle.std.specs.Prelude.{◌≡◌, ◌+◌, ◌<◌, ◌≤◌, ◌^◌, length};
ghost use Rattle.schema.specs.Decoding.{varint_at, bytes_at, payload_at, field_at};
ghost use Rattle.pb_wire.specs.Answers.{Gives, FindsNext};
ghost use Rattle.pb_wire.specs.View.{payload_view, front_view};

use crate::{Field, Payload, Reason, WireFault};

/// The greatest number that a field may have.
const GREATEST_NUMBER: u64 = 536_870_911;

/// The varint at the front of bytes, and what follows it.
#[inline(always)]
pub(crate) fn varint(bytes: &[u8]) -> Result<(u64, &[u8]), Reason>
    ensures { Gives (λ x. (x.0, x.1.now)) result (varint_at 9 bytes.now) }
{
    let mut value: u64 = 0;
    let mut weight: u64 = 1;
    let mut rest = bytes;
    for place in 0u32..9 {
        let Some((byte, after)) = rest.split_first() else {
            return Err(Reason::Truncated);
        };
        let byte = u64::from(*byte);
        if byte < 128 {
            return Ok((value + byte * weight, after));
        }
        value += (byte - 128) * weight;
        weight *= 128;
        rest = after;
    }
    let Some((byte, after)) = rest.split_first() else {
        return Err(Reason::Truncated);
    };
    let byte = u64::from(*byte);
    if byte < 2 {
        Ok((value + byte * weight, after))
    } else {
        Err(Reason::VarintLong)
    }
}

// So many bytes at the front, and what follows them.
#[inline(always)]
fn bytes(len: u64, from: &[u8]) -> Result<(&[u8], &[u8]), Reason>
    ensures { Gives (λ x. (x.0.now, x.1.now)) result (bytes_at len from.now) }
{
    if (from.len() as u64) < len {
        return Err(Reason::Truncated);
    }
    Ok(from.split_at(len as usize))
}

// The payload of a wire type at the front, and what follows it.
#[inline(always)]
#[tactic(auto, unfolding(schema::specs::Decoding::payload_at))]
fn payload(kind: u64, from: &[u8]) -> Result<(Payload<'_>, &[u8]), Reason>
    ensures { Gives (λ x. (payload_view x.0, x.1.now)) result (payload_at kind from.now) }
{
    if kind == 0 {
        let (value, rest) = varint(from)?;
        return Ok((Payload::Varint(value), rest));
    }
    if kind == 1 {
        let Some((front, rest)) = from.split_first_chunk::<8>() else {
            return Err(Reason::Truncated);
        };
        return Ok((Payload::Fixed64(*front), rest));
    }
    if kind == 2 {
        let (len, rest) = varint(from)?;
        let (front, rest) = bytes(len, rest)?;
        return Ok((Payload::Bytes(front), rest));
    }
    if kind == 5 {
        let Some((front, rest)) = from.split_first_chunk::<4>() else {
            return Err(Reason::Truncated);
        };
        return Ok((Payload::Fixed32(*front), rest));
    }
    Err(Reason::WireType)
}

// A field's number and payload.
#[derive(Clone, Copy)]
pub(crate) struct Front<'a> {
    pub number: u32,
    pub payload: Payload<'a>,
}

/// The field at the front of bytes, and what follows it.
#[inline(always)]
#[tactic(auto, unfolding(schema::specs::Decoding::field_at))]
pub(crate) fn front_field(bytes: &[u8]) -> Result<(Front<'_>, &[u8]), Reason>
    ensures { Gives (λ x. (front_view x.0, x.1.now)) result (field_at bytes.now) }
{
    let (tag, rest) = varint(bytes)?;
    let number = tag / 8;
    if number == 0 || number > GREATEST_NUMBER {
        return Err(Reason::FieldNumber);
    }
    let (payload, rest) = payload(tag % 8, rest)?;
    let number = number as u32;
    Ok((Front { number, payload }, rest))
}

/// The field of `body` that begins at the place `at`, and the place after it; None exactly at the end of `body`. Else the
/// first fault of what begins there, with the place of its tag. `base` is where `body` begins in the file. It takes no
/// memory.
#[inline]
pub fn next_field<'a>(
    body: &'a [u8],
    at: usize,
    base: u64,
) -> Result<Option<(Field<'a>, usize)>, WireFault>
    requires inside { at ≤ length body.now }
    requires below { base + length body.now < 2 ^ 63 }
    ensures { FindsNext base at body.now result }
{
    if at == body.len() {
        return Ok(None);
    }
    let place = base + at as u64;
    let (_, left) = body.split_at(at);
    match front_field(left) {
        Ok((found, rest)) => {
            let after = body.len() - rest.len();
            let field = Field {
                number: found.number,
                at: place,
                end: base + after as u64,
                payload: found.payload,
            };
            Ok(Some((field, after)))
        }
        Err(reason) => Err(WireFault { place, reason }),
    }
}
