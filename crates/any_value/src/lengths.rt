//! The lengths of canonical payloads, in bytes. They take no memory, and walk over no list: each keeps its own length.
ghost use Rattle.std.specs.Prelude.{◌≡◌, ◌<◌, ◌^◌, length, IfOk};
ghost use Rattle.schema.specs.AnySpell.{any_text, pair_text};
ghost use Rattle.schema.specs.Texts.{bytes_field, long_field};
ghost use Rattle.any_value.specs.ListLengths.{KeepsLength};
ghost use Rattle.any_value.specs.Views.{any_view};

use crate::value::{KeyValue, Value};
use pb_wire::{NoMemory, Number, long_len, text_len, varint_len};

// A list of so many bytes or more is not made.
const TOO_MANY_BYTES: u64 = 1 << 60;

/// The length of a value's canonical payload.
#[tactic(auto, using(schema_laws::proofs::Onto::long_len, schema_laws::proofs::Onto::varint_small))]
pub fn value_len(value: &Value<'_>) -> u64
    ensures { result ≡ length (any_text (any_view value.now)) }
{
    match value {
        Value::Empty => 0,
        Value::Text(text) => long_len(1, text.as_bytes().len() as u64),
        Value::Flag(flag) => varint_len(2 * 8) as u64 + varint_len(flag.to_varint()) as u64,
        Value::Int(number) => varint_len(3 * 8) as u64 + varint_len(number.to_varint()) as u64,
        Value::Double(bytes) => varint_len(4 * 8 + 1) as u64 + bytes.as_slice().len() as u64,
        Value::Items(items) => long_len(5, items.bytes),
        Value::Pairs(pairs) => long_len(6, pairs.bytes),
        Value::Raw(bytes) => long_len(7, bytes.as_slice().len() as u64),
    }
}

/// The length of the row of a value, which is left out where its payload is empty.
#[tactic(auto, using(schema_laws::proofs::Lengths::bytes_field_le, pb_wire::proofs::RowTexts::bytes_none, pb_wire::proofs::RowTexts::bytes_some, schema_laws::proofs::Onto::long_len))]
pub fn value_row_len(number: u32, value: &Value<'_>) -> u64
    requires below { number < 2 ^ 29 }
    requires room { length (bytes_field number (any_text (any_view value.now))) < 2 ^ 63 }
    ensures { result ≡ length (bytes_field number (any_text (any_view value.now))) }
{
    let len = value_len(value);
    if len == 0 {
        return 0;
    }
    long_len(number, len)
}

/// The length of a key and its value, each of which is left out where it is empty.
#[tactic(auto, using(crate::proofs::Appends::pair_text_len))]
pub(crate) fn pair_len(pair: &KeyValue<'_>) -> u64
    requires { length (pair_text pair.now.key (any_text (any_view pair.now.value))) < 2 ^ 63 }
    ensures { result ≡ length (pair_text pair.now.key (any_text (any_view pair.now.value))) }
{
    text_len(1, &pair.key) + value_row_len(2, &pair.value)
}

/// A length of bytes, unless these are too many.
pub(crate) fn below_limit(len: u64) -> Result<u64, NoMemory>
    ensures { IfOk result (λ n. (n ≡ len) × (n < 2 ^ 60)) }
{
    if len >= TOO_MANY_BYTES {
        return Err(NoMemory);
    }
    Ok(len)
}

/// The length of an element of a list of values with its tag and length.
#[tactic(auto, using(schema_laws::proofs::Onto::long_len))]
pub(crate) fn item_len(item: &Value<'_>) -> Result<u64, NoMemory>
    ensures { IfOk result (λ n. KeepsLength n (long_field 1 (any_text (any_view item.now)))) }
{
    let len = below_limit(value_len(item))?;
    below_limit(long_len(1, len))
}

/// The length of an element of a list of keys and values with its tag and length.
#[tactic(auto, using(schema_laws::proofs::Onto::long_len))]
pub(crate) fn keyed_len(pair: &KeyValue<'_>) -> Result<u64, NoMemory>
    ensures { IfOk result (λ n. KeepsLength n (long_field 1 (pair_text pair.now.key (any_text (any_view pair.now.value))))) }
{
    below_limit(pair.key.as_bytes().len() as u64)?;
    below_limit(value_len(&pair.value))?;
    let len = below_limit(pair_len(pair))?;
    below_limit(long_len(1, len))
}
