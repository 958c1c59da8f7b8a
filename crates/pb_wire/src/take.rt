//! One occurrence of a field, taken by its row: singular rows over the value so far, repeated ones after the elements so
//! far. A payload whose wire type doesn't fit the row is skipped.
ghost use Rattle.std.specs.Prelude.{◌≡◌, ◌<◌, ◌≤◌, ◌^◌, length, map, Ok};
ghost use Rattle.schema.specs.Field.{bytes_of};
ghost use Rattle.schema.specs.Merge.{one_number, one_fixed, one_bytes, take_one, take_many, more_packed, more_numbers, more_fixed, more_packed_fixed, more_bytes, more_texts, packed_reason as packed_reason_of, take_field};
ghost use Rattle.schema.specs.Run.{one_text, text_of as text_at};
ghost use Rattle.pb_wire.specs.Answers.{Reads, TakesNone, Took};
ghost use Rattle.pb_wire.specs.View.{payload_view, reason_view};

use crate::next::varint;
use crate::{
    BytesRef, Field, List, NoMemory, Number, Payload, ReadFault, Reason, TextRef, Wire, WireFault,
};
use std::alloc::Global;

/// Takes a singular number: the last occurrence wins. It takes no memory.
#[inline(always)]
pub fn take_number<N: Number>(slot: &mut N, field: &Field<'_>) -> Result<(), ReadFault>
    ensures taken { Took (N.value slot.new) result (Ok (one_number N.format (payload_view field.now.payload) (N.value slot.old))) }
    ensures no_memory { TakesNone result }
{
    if let Payload::Varint(varint) = field.payload {
        *slot = N::from_varint(varint);
    }
    Ok(())
}

/// Takes a singular eight-byte number, whose low byte comes first. It takes no memory.
#[inline]
pub fn take_fixed(slot: &mut u64, field: &Field<'_>) -> Result<(), ReadFault>
    ensures taken { Took slot.new result (Ok (one_fixed (payload_view field.now.payload) slot.old)) }
    ensures no_memory { TakesNone result }
{
    if let Payload::Fixed64(bytes) = field.payload {
        *slot = u64::from_le_bytes(bytes);
    }
    Ok(())
}

/// Takes singular bytes.
pub fn take_bytes<'a>(slot: &mut BytesRef<'a>, field: &Field<'a>) -> Result<(), ReadFault>
    ensures taken { Took slot.new result (Ok (one_bytes (payload_view field.now.payload) slot.old)) }
    ensures no_memory { TakesNone result }
{
    if let Payload::Bytes(bytes) = field.payload {
        *slot = BytesRef::of(bytes);
    }
    Ok(())
}

/// The text of bytes; `at` is the place of their field's tag.
pub fn text_of<'a>(bytes: &'a [u8], at: u64) -> Result<TextRef<'a>, ReadFault>
    ensures text { Reads (λ t. t) result (text_at at bytes.now) }
    ensures no_memory { TakesNone result }
{
    match str::from_utf8(bytes) {
        Ok(text) => Ok(TextRef::of(text)),
        Err(_) => Err(ReadFault::Wire(WireFault {
            place: at,
            reason: Reason::NotUtf8,
        })),
    }
}

/// Takes a singular text.
pub fn take_text<'a>(slot: &mut TextRef<'a>, field: &Field<'a>) -> Result<(), ReadFault>
    ensures taken { Took slot.new result (one_text field.now.at (payload_view field.now.payload) slot.old) }
    ensures no_memory { TakesNone result }
{
    if let Payload::Bytes(bytes) = field.payload {
        *slot = text_of(bytes, field.at)?;
    }
    Ok(())
}

/// Takes a singular message: its occurrences are read as their payloads joined.
pub fn take_message<'a, T: Wire<'a>>(
    slot: &mut T,
    alloc: Global,
    field: &Field<'a>,
) -> Result<(), ReadFault>
    requires inside { length (bytes_of (payload_view field.now.payload)) ≤ field.now.end }
    requires below { field.now.end < 2 ^ 63 }
    ensures { Took (T.view slot.new) result (take_one T.shape (take_field T.shape) field.now.at field.now.end (payload_view field.now.payload) (T.view slot.old)) }
{
    match field.payload {
        Payload::Bytes(bytes) => slot.merge(alloc, bytes, field.end - bytes.len() as u64),
        _ => Ok(()),
    }
}

/// Takes one element of a repeated message.
#[inline(always)]
pub fn add_message<'a, T: Wire<'a>>(
    slot: &mut List<T>,
    alloc: Global,
    field: &Field<'a>,
) -> Result<(), ReadFault>
    requires inside { length (bytes_of (payload_view field.now.payload)) ≤ field.now.end }
    requires below { field.now.end < 2 ^ 63 }
    ensures { Took (map T.view slot.new) result (take_many T.shape (take_field T.shape) field.now.at field.now.end (payload_view field.now.payload) (map T.view slot.old)) }
{
    match field.payload {
        Payload::Bytes(bytes) => {
            let mut element = T::none(alloc);
            element.merge(alloc, bytes, field.end - bytes.len() as u64)?;
            slot.add(element)?;
            Ok(())
        }
        _ => Ok(()),
    }
}

// In a packed payload, a varint that passes its end is a wrong length.
fn packed_reason(reason: Reason) -> Reason
    ensures { reason_view result ≡ packed_reason_of (reason_view reason) }
{
    match reason {
        Reason::Truncated => Reason::PackedLength,
        _ => reason,
    }
}

// The numbers of a packed payload, whose tag is at a place.
#[inline(always)]
fn add_packed<N: Number>(slot: &mut List<N>, bytes: &[u8], at: u64) -> Result<(), ReadFault>
    ensures { Took (map N.value slot.new) result (more_packed N.format at bytes.now (map N.value slot.old)) }
{
    let mut rest = bytes;
    while !rest.is_empty() {
        let (found, after) = match varint(rest) {
            Ok(front) => front,
            Err(reason) => {
                let reason = packed_reason(reason);
                return Err(ReadFault::Wire(WireFault { place: at, reason }));
            }
        };
        slot.add(N::from_varint(found))?;
        rest = after;
    }
    Ok(())
}

/// Takes the elements of a repeated number, packed or not.
#[inline(always)]
pub fn add_number<N: Number>(slot: &mut List<N>, field: &Field<'_>) -> Result<(), ReadFault>
    ensures { Took (map N.value slot.new) result (more_numbers N.format field.now.at (payload_view field.now.payload) (map N.value slot.old)) }
{
    match field.payload {
        Payload::Varint(varint) => {
            slot.add(N::from_varint(varint))?;
            Ok(())
        }
        Payload::Bytes(bytes) => add_packed(slot, bytes, field.at),
        _ => Ok(()),
    }
}

// The eight-byte numbers of a packed payload, whose tag is at a place.
fn add_packed_fixed(slot: &mut List<u64>, bytes: &[u8], at: u64) -> Result<(), ReadFault>
    ensures { Took slot.new result (more_packed_fixed at bytes.now slot.old) }
{
    if bytes.len() % 8 != 0 {
        return Err(ReadFault::Wire(WireFault {
            place: at,
            reason: Reason::PackedLength,
        }));
    }
    let mut rest = bytes;
    while let Some((front, after)) = rest.split_first_chunk::<8>() {
        slot.add(u64::from_le_bytes(*front))?;
        rest = after;
    }
    Ok(())
}

/// Takes the elements of a repeated eight-byte number, packed or not.
#[inline(always)]
pub fn add_fixed(slot: &mut List<u64>, field: &Field<'_>) -> Result<(), ReadFault>
    ensures { Took slot.new result (more_fixed field.now.at (payload_view field.now.payload) slot.old) }
{
    match field.payload {
        Payload::Fixed64(bytes) => {
            slot.add(u64::from_le_bytes(bytes))?;
            Ok(())
        }
        Payload::Bytes(bytes) => add_packed_fixed(slot, bytes, field.at),
        _ => Ok(()),
    }
}

/// Takes one element of repeated bytes.
pub fn add_bytes<'a>(slot: &mut List<BytesRef<'a>>, field: &Field<'a>) -> Result<(), ReadFault>
    ensures { Took slot.new result (Ok (more_bytes (payload_view field.now.payload) slot.old)) }
{
    match field.payload {
        Payload::Bytes(bytes) => {
            slot.add(BytesRef::of(bytes))?;
            Ok(())
        }
        _ => Ok(()),
    }
}

/// Takes one element of a repeated text.
pub fn add_text<'a>(slot: &mut List<TextRef<'a>>, field: &Field<'a>) -> Result<(), ReadFault>
    ensures { Took slot.new result (more_texts field.now.at (payload_view field.now.payload) slot.old) }
{
    match field.payload {
        Payload::Bytes(bytes) => {
            slot.add(text_of(bytes, field.at)?)?;
            Ok(())
        }
        _ => Ok(()),
    }
}
