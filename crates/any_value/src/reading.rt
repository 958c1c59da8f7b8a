//! Reading values. `left` is how many levels may come, `at` and `end` are where the tag of a field begins and where its
//! payload ends. A value that was read into is of no use after a fault.
ghost use Rattle.std.specs.Prelude.{◌≡◌, ◌+◌, ◌<◌, ◌≤◌, ◌^◌, length};
ghost use Rattle.schema.specs.AnyMember.{ItemsIn, PairsIn};
ghost use Rattle.schema.specs.AnyMerge.{merge_any, merge_any_all, any_levels, put_member, item_at, pair_at, take_element, take_member as member_taken, take_pair as pair_taken};
ghost use Rattle.schema.specs.AnyValue.{AnyValue, items_in, pairs_in};
ghost use Rattle.schema.specs.Field.{bytes_of};
ghost use Rattle.schema.specs.Merge.{take_one, take_field};
ghost use Rattle.schema.specs.Run.{message, run};
ghost use Rattle.schema.specs.Shape.{Any};
ghost use Rattle.schema.specs.Decoding.{trace};
ghost use Rattle.pb_wire.specs.Answers.{Reads, Took};
ghost use Rattle.pb_wire.specs.View.{field_view, payload_view};
ghost use Rattle.any_value.specs.Views.{any_view, pair_view};

use crate::member::{Member, member_of};
use crate::value::{KeyValue, KeyValues, Value, Values};
use pb_wire::{
    BytesRef, Field, Number, Payload, Pieces, ReadFault, Reason, TextRef, WireFault, next_field,
    take_text, text_of,
};
use std::alloc::Global;
use std::mem;

// Takes the payload of a value over the value so far. One for which no level is left is too deep, and is not parsed.
#[cycle(reading)]
fn in_value<'a>(
    value: &mut Value<'a>,
    alloc: Global,
    bytes: &'a [u8],
    at: u64,
    end: u64,
    left: u32,
) -> Result<(), ReadFault>
    requires inside { length bytes.now ≤ end }
    requires below { end < 2 ^ 63 }
    ensures { Took (any_view value.new) result (merge_any left at end bytes.now (any_view value.old)) }
{
    if left == 0 {
        return Err(ReadFault::Wire(WireFault {
            place: at,
            reason: Reason::TooDeep,
        }));
    }
    take_members(value, alloc, bytes, end - bytes.len() as u64, left - 1)
}

// Takes the fields of bytes that begin at the place `base`, with so many levels left for the values inside.
#[cycle(reading)]
fn take_members<'a>(
    value: &mut Value<'a>,
    alloc: Global,
    bytes: &'a [u8],
    base: u64,
    left: u32,
) -> Result<(), ReadFault>
    requires { base + length bytes.now < 2 ^ 63 }
    ensures { Took (any_view value.new) result (run (member_taken (merge_any left)) (any_view value.old) (trace base bytes.now)) }
{
    let mut at = 0;
    loop {
        match next_field(bytes, at, base) {
            Err(fault) => return Err(ReadFault::Wire(fault)),
            Ok(None) => return Ok(()),
            Ok(Some((field, after))) => {
                if let Err(fault) = take_member(value, alloc, &field, left) {
                    return Err(fault);
                }
                at = after;
            }
        }
    }
}

// Takes a field; one that is no member is skipped.
#[cycle(reading)]
fn take_member<'a>(
    value: &mut Value<'a>,
    alloc: Global,
    field: &Field<'a>,
    left: u32,
) -> Result<(), ReadFault>
    requires inside { length (bytes_of (payload_view field.now.payload)) ≤ field.now.end }
    requires below { field.now.end < 2 ^ 63 }
    ensures { Took (any_view value.new) result (member_taken (merge_any left) field.now.at field.now.end (field_view field.now) (any_view value.old)) }
{
    let Some(member) = member_of(field) else {
        return Ok(());
    };
    match member {
        Member::Text(bytes) => {
            *value = Value::Text(text_of(bytes, field.at)?);
            Ok(())
        }
        Member::Flag(number) => {
            *value = Value::Flag(bool::from_varint(number));
            Ok(())
        }
        Member::Int(number) => {
            *value = Value::Int(i64::from_varint(number));
            Ok(())
        }
        Member::Double(bytes) => {
            *value = Value::Double(bytes);
            Ok(())
        }
        Member::Items(bytes) => take_items(value, alloc, bytes, field.end, left),
        Member::Pairs(bytes) => take_pairs(value, alloc, bytes, field.end, left),
        Member::Raw(bytes) => {
            *value = Value::Raw(BytesRef::of(bytes));
            Ok(())
        }
    }
}

// The elements of a value, which are none where it is another member.
fn items_of<'a>(value: &mut Value<'a>, alloc: Global) -> Values<'a>
    ensures { result ≡ items_in (any_view value.old) }
{
    match mem::replace(value, Value::Empty) {
        Value::Items(items) => items,
        _ => Values::begin(alloc),
    }
}

// The keys and values of a value, which are none where it is another member.
fn pairs_of<'a>(value: &mut Value<'a>, alloc: Global) -> KeyValues<'a>
    ensures { result ≡ pairs_in (any_view value.old) }
{
    match mem::replace(value, Value::Empty) {
        Value::Pairs(pairs) => pairs,
        _ => KeyValues::begin(alloc),
    }
}

// Takes the payload of a list of values: its elements come after those of a value that is such a list.
#[cycle(reading)]
fn take_items<'a>(
    value: &mut Value<'a>,
    alloc: Global,
    bytes: &'a [u8],
    end: u64,
    left: u32,
) -> Result<(), ReadFault>
    requires inside { length bytes.now ≤ end }
    requires below { end < 2 ^ 63 }
    ensures { Took (any_view value.new) result (put_member (merge_any left) end end (ItemsIn bytes.now) (any_view value.old)) }
{
    let mut items = items_of(value, alloc);
    in_items(&mut items, alloc, bytes, end - bytes.len() as u64, left)?;
    *value = Value::Items(items);
    Ok(())
}

// Takes the payload of a list of keys and values: its elements come after those of a value that is such a list.
#[cycle(reading)]
fn take_pairs<'a>(
    value: &mut Value<'a>,
    alloc: Global,
    bytes: &'a [u8],
    end: u64,
    left: u32,
) -> Result<(), ReadFault>
    requires inside { length bytes.now ≤ end }
    requires below { end < 2 ^ 63 }
    ensures { Took (any_view value.new) result (put_member (merge_any left) end end (PairsIn bytes.now) (any_view value.old)) }
{
    let mut pairs = pairs_of(value, alloc);
    in_pairs(&mut pairs, alloc, bytes, end - bytes.len() as u64, left)?;
    *value = Value::Pairs(pairs);
    Ok(())
}

// Takes the fields of a list of values, which begin at the place `base`.
#[cycle(reading)]
fn in_items<'a>(
    items: &mut Values<'a>,
    alloc: Global,
    bytes: &'a [u8],
    base: u64,
    left: u32,
) -> Result<(), ReadFault>
    requires { base + length bytes.now < 2 ^ 63 }
    ensures { Took items.new result (run (take_element (item_at (merge_any left))) items.old (trace base bytes.now)) }
{
    let mut at = 0;
    loop {
        match next_field(bytes, at, base) {
            Err(fault) => return Err(ReadFault::Wire(fault)),
            Ok(None) => return Ok(()),
            Ok(Some((field, after))) => {
                if let Err(fault) = add_item(items, alloc, &field, left) {
                    return Err(fault);
                }
                at = after;
            }
        }
    }
}

// Takes an element of a list of values.
#[cycle(reading)]
fn add_item<'a>(
    items: &mut Values<'a>,
    alloc: Global,
    field: &Field<'a>,
    left: u32,
) -> Result<(), ReadFault>
    requires inside { length (bytes_of (payload_view field.now.payload)) ≤ field.now.end }
    requires below { field.now.end < 2 ^ 63 }
    ensures { Took items.new result (take_element (item_at (merge_any left)) field.now.at field.now.end (field_view field.now) items.old) }
{
    if field.number != 1 {
        return Ok(());
    }
    match field.payload {
        Payload::Bytes(bytes) => {
            let mut item = Value::Empty;
            in_value(&mut item, alloc, bytes, field.at, field.end, left)?;
            items.add(item)?;
            Ok(())
        }
        _ => Ok(()),
    }
}

// Takes the fields of a list of keys and values, which begin at the place `base`.
#[cycle(reading)]
fn in_pairs<'a>(
    pairs: &mut KeyValues<'a>,
    alloc: Global,
    bytes: &'a [u8],
    base: u64,
    left: u32,
) -> Result<(), ReadFault>
    requires { base + length bytes.now < 2 ^ 63 }
    ensures { Took pairs.new result (run (take_element (pair_at (merge_any left))) pairs.old (trace base bytes.now)) }
{
    let mut at = 0;
    loop {
        match next_field(bytes, at, base) {
            Err(fault) => return Err(ReadFault::Wire(fault)),
            Ok(None) => return Ok(()),
            Ok(Some((field, after))) => {
                if let Err(fault) = add_pair(pairs, alloc, &field, left) {
                    return Err(fault);
                }
                at = after;
            }
        }
    }
}

// Takes an element of a list of keys and values.
#[cycle(reading)]
fn add_pair<'a>(
    pairs: &mut KeyValues<'a>,
    alloc: Global,
    field: &Field<'a>,
    left: u32,
) -> Result<(), ReadFault>
    requires inside { length (bytes_of (payload_view field.now.payload)) ≤ field.now.end }
    requires below { field.now.end < 2 ^ 63 }
    ensures { Took pairs.new result (take_element (pair_at (merge_any left)) field.now.at field.now.end (field_view field.now) pairs.old) }
{
    if field.number != 1 {
        return Ok(());
    }
    match field.payload {
        Payload::Bytes(bytes) => {
            let mut pair = KeyValue {
                key: TextRef::empty(),
                value: Value::Empty,
            };
            in_pair(
                &mut pair,
                alloc,
                bytes,
                field.end - bytes.len() as u64,
                left,
            )?;
            pairs.add(pair)?;
            Ok(())
        }
        _ => Ok(()),
    }
}

// Takes the fields of a key and its value, which begin at the place `base`.
#[cycle(reading)]
fn in_pair<'a>(
    pair: &mut KeyValue<'a>,
    alloc: Global,
    bytes: &'a [u8],
    base: u64,
    left: u32,
) -> Result<(), ReadFault>
    requires { base + length bytes.now < 2 ^ 63 }
    ensures { Took (pair_view pair.new) result (run (pair_taken (merge_any left)) (pair_view pair.old) (trace base bytes.now)) }
{
    let mut at = 0;
    loop {
        match next_field(bytes, at, base) {
            Err(fault) => return Err(ReadFault::Wire(fault)),
            Ok(None) => return Ok(()),
            Ok(Some((field, after))) => {
                if let Err(fault) = take_pair(pair, alloc, &field, left) {
                    return Err(fault);
                }
                at = after;
            }
        }
    }
}

// Takes a field of a key and its value.
#[cycle(reading)]
fn take_pair<'a>(
    pair: &mut KeyValue<'a>,
    alloc: Global,
    field: &Field<'a>,
    left: u32,
) -> Result<(), ReadFault>
    requires inside { length (bytes_of (payload_view field.now.payload)) ≤ field.now.end }
    requires below { field.now.end < 2 ^ 63 }
    ensures { Took (pair_view pair.new) result (pair_taken (merge_any left) field.now.at field.now.end (field_view field.now) (pair_view pair.old)) }
{
    match field.number {
        1 => {
            take_text(&mut pair.key, field)?;
            Ok(())
        }
        2 => match field.payload {
            Payload::Bytes(bytes) => {
                in_value(&mut pair.value, alloc, bytes, field.at, field.end, left)?;
                Ok(())
            }
            _ => Ok(()),
        },
        _ => Ok(()),
    }
}

/// Takes an occurrence of a singular row of this depth: its occurrences are read as their payloads joined.
pub fn take_value<'a>(
    slot: &mut Value<'a>,
    alloc: Global,
    field: &Field<'a>,
    depth: u32,
) -> Result<(), ReadFault>
    requires inside { length (bytes_of (payload_view field.now.payload)) ≤ field.now.end }
    requires below { field.now.end < 2 ^ 63 }
    requires depth { depth ≤ 65 }
    ensures { Took (any_view slot.new) result (take_one (Any depth) (take_field (Any depth)) field.now.at field.now.end (payload_view field.now.payload) (any_view slot.old)) }
{
    match field.payload {
        Payload::Bytes(bytes) => in_value(slot, alloc, bytes, field.at, field.end, 65 - depth),
        _ => Ok(()),
    }
}

/// The value of the joined payloads of one AnyValue, which has this depth, or the first fault in written order. One that
/// is in no other has depth 1.
pub fn decode_value<'a>(
    alloc: Global,
    pieces: &Pieces<'a>,
    depth: u32,
) -> Result<Value<'a>, ReadFault>
    requires first { 1 ≤ depth }
    requires last { depth ≤ 64 }
    ensures { Reads any_view result (merge_any_all (any_levels (depth + 1)) AnyValue.Empty pieces.now) }
{
    let mut value = Value::Empty;
    for piece in pieces.as_slice() {
        if let Err(fault) = take_members(&mut value, alloc, piece.bytes, piece.base, 64 - depth) {
            return Err(fault);
        }
    }
    Ok(value)
}
