//! Writing varints and single fields.
ghost use Rattle.std.specs.Prelude.{◌≡◌, ◌+◌, ◌*◌, ◌<◌, ◌≤◌, ◌^◌, ◌++◌, length, OnOk, OnErr};
ghost use Rattle.schema.specs.Texts.{varint, long_field, field_text};
ghost use Rattle.schema.specs.Prefix.{IsPrefix};
ghost use Rattle.pb_wire.specs.View.{payload_view};

use crate::{Blob, NoMemory, Payload};

/// The length of the shortest varint, 1 to 10 bytes.
#[inline]
#[tactic(auto, using(schema_laws::proofs::Onto::varint_small))]
pub fn varint_len(value: u64) -> usize
    ensures len { result ≡ length (varint value) }
    ensures most { result ≤ 10 }
{
    if value < 128 {
        1
    } else if value < 16_384 {
        2
    } else if value < 2_097_152 {
        3
    } else if value < 268_435_456 {
        4
    } else if value < 34_359_738_368 {
        5
    } else if value < 4_398_046_511_104 {
        6
    } else if value < 562_949_953_421_312 {
        7
    } else if value < 72_057_594_037_927_936 {
        8
    } else if value < 9_223_372_036_854_775_808 {
        9
    } else {
        10
    }
}

// Puts the shortest varint of 128 or more at the end; when out of memory, the bytes so far are still in front.
#[tactic(auto, using(schema_laws::proofs::Onto::varint_small, schema_laws::proofs::Onto::varint_onto, crate::proofs::Prefixes::growing))]
fn push_long_varint(out: &mut Blob, value: u64) -> Result<(), NoMemory>
    ensures ok { OnOk result (out.new ≡ out.old ++ varint value) }
    ensures err { OnErr result (IsPrefix out.old out.new) }
{
    let mut rest = value;
    while rest >= 128 {
        if let Err(stop) = out.push((rest % 128 + 128) as u8) {
            return Err(stop);
        }
        rest /= 128;
    }
    out.push(rest as u8)?;
    Ok(())
}

/// Puts the shortest varint at the end; when out of memory, the bytes so far are still in front.
#[inline(always)]
#[tactic(auto, using(schema_laws::proofs::Onto::varint_small, crate::proofs::Prefixes::growing))]
pub(crate) fn push_varint(out: &mut Blob, value: u64) -> Result<(), NoMemory>
    ensures ok { OnOk result (out.new ≡ out.old ++ varint value) }
    ensures err { OnErr result (IsPrefix out.old out.new) }
{
    if value < 128 {
        out.push(value as u8)?;
        return Ok(());
    }
    push_long_varint(out, value)
}

/// Puts the shortest varint at the end, all of it or nothing.
pub fn put_varint(out: &mut Blob, value: u64) -> Result<(), NoMemory>
    ensures ok { OnOk result (out.new ≡ out.old ++ varint value) }
    ensures err { OnErr result (out.new ≡ out.old) }
{
    let begin = out.len();
    if let Err(stop) = push_varint(out, value) {
        out.truncate(begin);
        return Err(stop);
    }
    Ok(())
}

/// Puts the tag and the length of a field of bytes at the end. After an error the bytes so far are still in front.
#[inline(always)]
#[tactic(auto, using(crate::proofs::Prefixes::growing))]
pub fn put_head(out: &mut Blob, number: u32, len: u64) -> Result<(), NoMemory>
    requires { number < 2 ^ 29 }
    ensures ok { OnOk result (out.new ≡ (out.old ++ varint (number * 8 + 2)) ++ varint len) }
    ensures err { OnErr result (IsPrefix out.old out.new) }
{
    push_varint(out, number as u64 * 8 + 2)?;
    push_varint(out, len)?;
    Ok(())
}

/// Puts a tag, a length and bytes at the end; when out of memory, the bytes so far are still in front.
#[inline]
#[tactic(auto, using(crate::proofs::Prefixes::growing), unfolding(schema::specs::Texts::long_field))]
pub(crate) fn push_long(out: &mut Blob, number: u32, bytes: &[u8]) -> Result<(), NoMemory>
    requires { number < 2 ^ 29 }
    ensures ok { OnOk result (out.new ≡ out.old ++ long_field number bytes.now) }
    ensures err { OnErr result (IsPrefix out.old out.new) }
{
    push_varint(out, number as u64 * 8 + 2)?;
    push_varint(out, bytes.len() as u64)?;
    out.append(bytes)?;
    Ok(())
}

/// Puts a field at the end; when out of memory, the bytes so far are still in front.
#[tactic(auto, using(crate::proofs::Prefixes::growing))]
fn push_field(out: &mut Blob, number: u32, payload: &Payload<'_>) -> Result<(), NoMemory>
    requires { number < 2 ^ 29 }
    ensures ok { OnOk result (out.new ≡ out.old ++ field_text number (payload_view payload.now)) }
    ensures err { OnErr result (IsPrefix out.old out.new) }
{
    match payload {
        Payload::Varint(value) => {
            push_varint(out, number as u64 * 8)?;
            push_varint(out, *value)?;
            Ok(())
        }
        Payload::Fixed64(bytes) => {
            push_varint(out, number as u64 * 8 + 1)?;
            out.append(bytes)?;
            Ok(())
        }
        Payload::Bytes(bytes) => push_long(out, number, bytes),
        Payload::Fixed32(bytes) => {
            push_varint(out, number as u64 * 8 + 5)?;
            out.append(bytes)?;
            Ok(())
        }
    }
}

/// Puts a field at the end, all of it or nothing. Its number is at least 1 and at most 536,870,911.
pub fn put_field(out: &mut Blob, number: u32, payload: &Payload<'_>) -> Result<(), NoMemory>
    requires above { 1 ≤ number }
    requires below { number ≤ 536870911 }
    ensures ok { OnOk result (out.new ≡ out.old ++ field_text number (payload_view payload.now)) }
    ensures err { OnErr result (out.new ≡ out.old) }
{
    let begin = out.len();
    if let Err(stop) = push_field(out, number, payload) {
        out.truncate(begin);
        return Err(stop);
    }
    Ok(())
}
