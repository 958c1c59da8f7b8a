//! Writing values. When out of memory, a part may be at the end of `out`, if nothing else is said.
ghost use Rattle.std.specs.Prelude.{◌≡◌, ◌*◌, ◌+◌, ◌<◌, ◌≤◌, ◌^◌, ◌++◌, length, OnOk, OnErr};
ghost use Rattle.schema.specs.AnySpell.{any_text, pair_text, values_text, pairs_text};
ghost use Rattle.schema.specs.AnyValue.{values_of, pairs_of};
ghost use Rattle.schema.specs.Field.{Eight};
ghost use Rattle.schema.specs.ReadBack.{IsAnyReadBack};
ghost use Rattle.schema.specs.Typed.{ArePairsTyped, AreTyped, IsTypedAny};
ghost use Rattle.schema.specs.Texts.{varint, field_text, long_field, bytes_field};
ghost use Rattle.schema.specs.Prefix.{IsPrefix};
ghost use Rattle.pb_wire.specs.View.{payload_view};
ghost use Rattle.any_value.specs.Views.{IsPairTyped, any_view};

use crate::lengths::{pair_len, value_len};
use crate::value::{KeyValue, KeyValues, Value, Values};
use pb_wire::{Blob, NoMemory, Number, Payload, put_field, put_text, put_varint};

// Puts a tag and the length of what comes after it.
#[tactic(auto, using(pb_wire::proofs::Prefixes::growing))]
fn push_head(out: &mut Blob, number: u32, len: u64) -> Result<(), NoMemory>
    requires { number < 2 ^ 29 }
    ensures ok { OnOk result (out.new ≡ (out.old ++ varint (number * 8 + 2)) ++ varint len) }
    ensures err { OnErr result (IsPrefix out.old out.new) }
{
    put_varint(out, number as u64 * 8 + 2)?;
    put_varint(out, len)?;
    Ok(())
}

// Puts a field.
#[tactic(auto, using(pb_wire::proofs::Prefixes::growing))]
fn push_field(out: &mut Blob, number: u32, payload: &Payload<'_>) -> Result<(), NoMemory>
    requires above { 1 ≤ number }
    requires below { number ≤ 536870911 }
    ensures ok { OnOk result (out.new ≡ out.old ++ field_text number (payload_view payload.now)) }
    ensures err { OnErr result (IsPrefix out.old out.new) }
{
    put_field(out, number, payload)?;
    Ok(())
}

// Puts a double, which has eight bytes.
#[tactic(auto, using(pb_wire::proofs::Prefixes::growing))]
fn push_double(out: &mut Blob, bytes: [u8; 8]) -> Result<(), NoMemory>
    ensures ok { OnOk result (out.new ≡ out.old ++ field_text 4 (Eight bytes)) }
    ensures err { OnErr result (IsPrefix out.old out.new) }
    ensures typed { OnOk result (length bytes ≡ 8) }
{
    push_field(out, 4, &Payload::Fixed64(bytes))?;
    Ok(())
}

// Puts the canonical payload of a value.
#[cycle(writing)]
#[tactic(auto, using(pb_wire::proofs::Prefixes::growing, crate::proofs::Appends::put_none))]
fn push_value(out: &mut Blob, value: &Value<'_>) -> Result<(), NoMemory>
    requires { length (any_text (any_view value.now)) < 2 ^ 63 }
    ensures ok { OnOk result (out.new ≡ out.old ++ any_text (any_view value.now)) }
    ensures err { OnErr result (IsPrefix out.old out.new) }
    ensures typed { OnOk result (IsTypedAny (any_view value.now)) }
{
    match value {
        Value::Empty => Ok(()),
        Value::Text(text) => push_field(out, 1, &Payload::Bytes(text.as_bytes())),
        Value::Flag(flag) => push_field(out, 2, &Payload::Varint(flag.to_varint())),
        Value::Int(number) => push_field(out, 3, &Payload::Varint(number.to_varint())),
        Value::Double(bytes) => push_double(out, *bytes),
        Value::Items(items) => push_items(out, items),
        Value::Pairs(pairs) => push_pairs(out, pairs),
        Value::Raw(bytes) => push_field(out, 7, &Payload::Bytes(bytes.as_slice())),
    }
}

// Puts a list of values after its tag and length.
#[cycle(writing)]
#[tactic(auto, using(pb_wire::proofs::Prefixes::growing, schema_laws::proofs::Onto::long_len, schema_laws::proofs::Onto::long_onto))]
fn push_items(out: &mut Blob, items: &Values<'_>) -> Result<(), NoMemory>
    requires { length (long_field 5 (values_text (values_of items.now))) < 2 ^ 63 }
    ensures ok { OnOk result (out.new ≡ out.old ++ long_field 5 (values_text (values_of items.now))) }
    ensures err { OnErr result (IsPrefix out.old out.new) }
    ensures typed { OnOk result (AreTyped (values_of items.now)) }
{
    push_head(out, 5, items.bytes)?;
    push_each_item(out, items)?;
    Ok(())
}

// Puts a list of keys and values after its tag and length.
#[cycle(writing)]
#[tactic(auto, using(pb_wire::proofs::Prefixes::growing, schema_laws::proofs::Onto::long_len, schema_laws::proofs::Onto::long_onto))]
fn push_pairs(out: &mut Blob, pairs: &KeyValues<'_>) -> Result<(), NoMemory>
    requires { length (long_field 6 (pairs_text (pairs_of pairs.now))) < 2 ^ 63 }
    ensures ok { OnOk result (out.new ≡ out.old ++ long_field 6 (pairs_text (pairs_of pairs.now))) }
    ensures err { OnErr result (IsPrefix out.old out.new) }
    ensures typed { OnOk result (ArePairsTyped (pairs_of pairs.now)) }
{
    push_head(out, 6, pairs.bytes)?;
    push_each_pair(out, pairs)?;
    Ok(())
}

// Puts each element after its own tag and length, also an empty one.
#[cycle(writing)]
#[tactic(auto, using(pb_wire::proofs::Types::each_next, pb_wire::proofs::Prefixes::growing))]
fn push_each_item(out: &mut Blob, items: &Values<'_>) -> Result<(), NoMemory>
    requires { length (values_text (values_of items.now)) < 2 ^ 63 }
    ensures ok { OnOk result (out.new ≡ out.old ++ values_text (values_of items.now)) }
    ensures err { OnErr result (IsPrefix out.old out.new) }
    ensures typed { OnOk result (AreTyped (values_of items.now)) }
{
    for item in &items.inner {
        if let Err(stop) = push_item(out, item) {
            return Err(stop);
        }
    }
    Ok(())
}

// Puts an element of a list of values after its tag and length.
#[cycle(writing)]
#[tactic(auto, using(pb_wire::proofs::Prefixes::growing, schema_laws::proofs::Onto::long_len, schema_laws::proofs::Onto::long_onto))]
fn push_item(out: &mut Blob, item: &Value<'_>) -> Result<(), NoMemory>
    requires { length (long_field 1 (any_text (any_view item.now))) < 2 ^ 63 }
    ensures ok { OnOk result (out.new ≡ out.old ++ long_field 1 (any_text (any_view item.now))) }
    ensures err { OnErr result (IsPrefix out.old out.new) }
    ensures typed { OnOk result (IsTypedAny (any_view item.now)) }
{
    push_head(out, 1, value_len(item))?;
    push_value(out, item)?;
    Ok(())
}

// Puts each element after its own tag and length, also an empty one.
#[cycle(writing)]
#[tactic(auto, using(pb_wire::proofs::Types::each_next, pb_wire::proofs::Prefixes::growing))]
fn push_each_pair(out: &mut Blob, pairs: &KeyValues<'_>) -> Result<(), NoMemory>
    requires { length (pairs_text (pairs_of pairs.now)) < 2 ^ 63 }
    ensures ok { OnOk result (out.new ≡ out.old ++ pairs_text (pairs_of pairs.now)) }
    ensures err { OnErr result (IsPrefix out.old out.new) }
    ensures typed { OnOk result (ArePairsTyped (pairs_of pairs.now)) }
{
    for pair in &pairs.inner {
        if let Err(stop) = push_pair(out, pair) {
            return Err(stop);
        }
    }
    Ok(())
}

// Puts a key and its value, each of which is left out where it is empty, after a tag and a length.
#[cycle(writing)]
#[tactic(auto, using(pb_wire::proofs::Prefixes::growing, crate::proofs::Appends::pair_text_len, crate::proofs::Appends::pair_onto, schema_laws::proofs::Onto::long_len, schema_laws::proofs::Onto::long_onto))]
fn push_pair(out: &mut Blob, pair: &KeyValue<'_>) -> Result<(), NoMemory>
    requires { length (long_field 1 (pair_text pair.now.key (any_text (any_view pair.now.value)))) < 2 ^ 63 }
    ensures ok { OnOk result (out.new ≡ out.old ++ long_field 1 (pair_text pair.now.key (any_text (any_view pair.now.value)))) }
    ensures err { OnErr result (IsPrefix out.old out.new) }
    ensures typed { OnOk result (IsPairTyped pair.now) }
{
    push_head(out, 1, pair_len(pair))?;
    put_text(out, 1, &pair.key)?;
    put_value(out, 2, &pair.value)?;
    Ok(())
}

/// Puts the row of a value, unless its payload is empty.
#[cycle(writing)]
#[tactic(auto, using(crate::proofs::Types::none_typed, pb_wire::proofs::Prefixes::growing, schema_laws::proofs::Lengths::bytes_field_le, pb_wire::proofs::RowTexts::left_out, pb_wire::proofs::RowTexts::bytes_some, schema_laws::proofs::Onto::long_onto))]
pub fn put_value(out: &mut Blob, number: u32, value: &Value<'_>) -> Result<(), NoMemory>
    requires below { number < 2 ^ 29 }
    requires room { length (bytes_field number (any_text (any_view value.now))) < 2 ^ 63 }
    ensures ok { OnOk result (out.new ≡ out.old ++ bytes_field number (any_text (any_view value.now))) }
    ensures err { OnErr result (IsPrefix out.old out.new) }
    ensures typed { OnOk result (IsTypedAny (any_view value.now)) }
{
    let len = value_len(value);
    if len == 0 {
        return Ok(());
    }
    push_head(out, number, len)?;
    push_value(out, value)?;
    Ok(())
}

/// Puts the canonical payload of a value at the end, all of it or nothing. It is read as this value where enough levels are left.
pub fn encode_value(value: &Value<'_>, out: &mut Blob) -> Result<(), NoMemory>
    requires { length (any_text (any_view value.now)) < 2 ^ 63 }
    ensures ok { OnOk result (out.new ≡ out.old ++ any_text (any_view value.now)) }
    ensures err { OnErr result (out.new ≡ out.old) }
    ensures back { OnOk result (IsAnyReadBack (any_view value.now)) }
{
    let begin = out.len();
    if let Err(stop) = push_value(out, value) {
        out.truncate(begin);
        return Err(stop);
    }
    Ok(())
}
