//! The lengths of the rows of a message, in bytes. They take no memory.
ghost use Rattle.std.specs.Prelude.{◌≡◌, ◌+◌, ◌*◌, ◌<◌, ◌≤◌, ◌^◌, length, map};
ghost use Rattle.schema.specs.Moved.{moved};
ghost use Rattle.schema.specs.Texts.{varint, number_to, number_field, fixed_field, bytes_field, numbers_text, fixed_text, items_text};
ghost use Rattle.schema.specs.Spell.{spell};

use crate::put::varint_len;
use crate::{BytesRef, NewIndexes, Number, Rows, TextRef};

/// The length of a tag, of a length, and of the bytes after them.
#[inline]
pub fn long_len(number: u32, len: u64) -> u64
    requires below { number < 2 ^ 29 }
    requires room { len < 2 ^ 63 }
    ensures { result ≡ length (varint (number * 8 + 2)) + length (varint len) + len }
{
    varint_len(number as u64 * 8 + 2) as u64 + varint_len(len) as u64 + len
}

/// The length of the row of a number.
#[inline]
#[tactic(auto, unfolding(schema::specs::Texts::number_field))]
pub fn number_len<N: Number>(number: u32, value: N) -> u64
    requires { number < 2 ^ 29 }
    ensures { result ≡ length (number_field number (number_to N.format (N.value value))) }
{
    let value = value.to_varint();
    if value == 0 {
        return 0;
    }
    varint_len(number as u64 * 8) as u64 + varint_len(value) as u64
}

/// The length of the row of eight bytes.
#[inline]
#[tactic(auto, unfolding(schema::specs::Texts::fixed_field))]
pub fn fixed_len(number: u32, value: u64) -> u64
    requires { number < 2 ^ 29 }
    ensures { result ≡ length (fixed_field number value) }
{
    if value == 0 {
        return 0;
    }
    varint_len(number as u64 * 8 + 1) as u64 + 8
}

/// The length of the row of bytes.
#[inline]
#[tactic(auto, using(schema_laws::proofs::Lengths::bytes_field_le, crate::proofs::RowTexts::bytes_none, crate::proofs::RowTexts::bytes_some, schema_laws::proofs::Onto::long_len))]
pub fn bytes_len(number: u32, bytes: &BytesRef<'_>) -> u64
    requires below { number < 2 ^ 29 }
    requires room { length (bytes_field number bytes.now) < 2 ^ 63 }
    ensures { result ≡ length (bytes_field number bytes.now) }
{
    if bytes.is_empty() {
        return 0;
    }
    long_len(number, bytes.len() as u64)
}

/// The length of the row of a text.
#[inline]
#[tactic(auto, using(schema_laws::proofs::Lengths::bytes_field_le, crate::proofs::RowTexts::bytes_none, crate::proofs::RowTexts::bytes_some, schema_laws::proofs::Onto::long_len))]
pub fn text_len(number: u32, text: &TextRef<'_>) -> u64
    requires below { number < 2 ^ 29 }
    requires room { length (bytes_field number text.now) < 2 ^ 63 }
    ensures { result ≡ length (bytes_field number text.now) }
{
    let bytes = text.as_bytes();
    if bytes.is_empty() {
        return 0;
    }
    long_len(number, bytes.len() as u64)
}

/// The length of the row of a message.
#[inline]
#[tactic(auto, using(schema_laws::proofs::Lengths::bytes_field_le, crate::proofs::RowTexts::bytes_none, crate::proofs::RowTexts::bytes_some, schema_laws::proofs::Onto::long_len, schema_laws::proofs::Onto::onto_len))]
pub fn message_len<T: Rows, I: NewIndexes>(number: u32, message: &T, indexes: &I) -> u64
    requires below { number < 2 ^ 29 }
    requires room { length (bytes_field number (spell T.shape (moved (I.to indexes.now) T.shape (T.view message.now)))) < 2 ^ 63 }
    ensures { result ≡ length (bytes_field number (spell T.shape (moved (I.to indexes.now) T.shape (T.view message.now)))) }
{
    let len = message.rows_len(indexes);
    if len == 0 {
        return 0;
    }
    long_len(number, len)
}

/// The length of packed numbers.
#[tactic(auto)]
pub(crate) fn packed_len<N: Number>(items: &[N]) -> u64
    requires { length (numbers_text N.format (map N.value items.now)) < 2 ^ 63 }
    ensures { result ≡ length (numbers_text N.format (map N.value items.now)) }
{
    let mut len = 0;
    for item in items {
        len += varint_len(item.to_varint()) as u64;
    }
    len
}

/// The length of the row of packed numbers.
#[tactic(auto, using(schema_laws::proofs::Lengths::bytes_field_le, crate::proofs::RowTexts::bytes_none, crate::proofs::RowTexts::bytes_some, schema_laws::proofs::Onto::long_len))]
pub fn numbers_len<N: Number>(number: u32, items: &[N]) -> u64
    requires below { number < 2 ^ 29 }
    requires room { length (bytes_field number (numbers_text N.format (map N.value items.now))) < 2 ^ 63 }
    ensures { result ≡ length (bytes_field number (numbers_text N.format (map N.value items.now))) }
{
    let len = packed_len(items);
    if len == 0 {
        return 0;
    }
    long_len(number, len)
}

/// The length of the row of packed eight-byte values.
#[inline]
#[tactic(auto, using(schema_laws::proofs::Lengths::bytes_field_le, crate::proofs::RowTexts::bytes_none, crate::proofs::RowTexts::bytes_some, schema_laws::proofs::Onto::long_len, schema_laws::proofs::FixedNumbers::fixed_len))]
pub fn fixed_list_len(number: u32, items: &[u64]) -> u64
    requires below { number < 2 ^ 29 }
    requires room { length (bytes_field number (fixed_text items.now)) < 2 ^ 63 }
    ensures { result ≡ length (bytes_field number (fixed_text items.now)) }
{
    if items.is_empty() {
        return 0;
    }
    long_len(number, items.len() as u64 * 8)
}

/// The length of the row of repeated bytes.
#[tactic(auto, using(schema_laws::proofs::Onto::long_len))]
pub fn bytes_list_len(number: u32, items: &[BytesRef<'_>]) -> u64
    requires below { number < 2 ^ 29 }
    requires room { length (items_text number items.now) < 2 ^ 63 }
    ensures { result ≡ length (items_text number items.now) }
{
    let mut len = 0;
    for item in items {
        len += long_len(number, item.len() as u64);
    }
    len
}

/// The length of the row of repeated texts.
#[tactic(auto, using(schema_laws::proofs::Onto::long_len))]
pub fn text_list_len(number: u32, items: &[TextRef<'_>]) -> u64
    requires below { number < 2 ^ 29 }
    requires room { length (items_text number items.now) < 2 ^ 63 }
    ensures { result ≡ length (items_text number items.now) }
{
    let mut len = 0;
    for item in items {
        len += long_len(number, item.as_bytes().len() as u64);
    }
    len
}

/// The length of the row of repeated messages.
#[tactic(auto, using(schema_laws::proofs::Onto::long_len, schema_laws::proofs::Onto::onto_len, crate::proofs::RowTexts::items_moved))]
pub fn messages_len<T: Rows, I: NewIndexes>(number: u32, items: &[T], indexes: &I) -> u64
    requires below { number < 2 ^ 29 }
    requires room { length (items_text number (map (spell T.shape) (map (moved (I.to indexes.now) T.shape) (map T.view items.now)))) < 2 ^ 63 }
    ensures { result ≡ length (items_text number (map (spell T.shape) (map (moved (I.to indexes.now) T.shape) (map T.view items.now)))) }
{
    let mut len = 0;
    for item in items {
        len += long_len(number, item.rows_len(indexes));
    }
    len
}
