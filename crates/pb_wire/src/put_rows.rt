//! Writing the rows of a message. After an error a part of the row may be at the end of `out`.
ghost use Rattle.std.specs.Prelude.{◌≡◌, ◌+◌, ◌*◌, ◌<◌, ◌≤◌, ◌^◌, ◌++◌, length, map, true, OnOk, OnErr};
ghost use Rattle.std.specs.Str.{is_utf8};
ghost use Rattle.schema.specs.Each.{Each};
ghost use Rattle.schema.specs.Moved.{moved};
ghost use Rattle.schema.specs.Typed.{IsTyped};
ghost use Rattle.schema.specs.Texts.{FitsNumber, varint, number_to, number_field, fixed_field, long_field, bytes_field, numbers_text, fixed_text, items_text};
ghost use Rattle.schema.specs.Spell.{len_onto, spell};
ghost use Rattle.schema.specs.Prefix.{IsPrefix};

use crate::lengths::packed_len;
use crate::put::{push_long, push_varint};
use crate::{Blob, BytesRef, NewIndexes, NoMemory, Number, Rows, TextRef};

/// Puts a number that is not 0.
#[inline(always)]
#[tactic(auto, using(crate::proofs::Prefixes::growing), unfolding(schema::specs::Texts::number_field))]
pub fn put_number<N: Number>(out: &mut Blob, number: u32, value: N) -> Result<(), NoMemory>
    requires { number < 2 ^ 29 }
    ensures ok { OnOk result (out.new ≡ out.old ++ number_field number (number_to N.format (N.value value))) }
    ensures err { OnErr result (IsPrefix out.old out.new) }
    ensures typed { OnOk result (FitsNumber N.format (N.value value)) }
{
    let value = value.to_varint();
    if value == 0 {
        return Ok(());
    }
    push_varint(out, number as u64 * 8)?;
    push_varint(out, value)?;
    Ok(())
}

/// Puts eight bytes, the low ones first, of a number that is not 0.
#[inline]
#[tactic(auto, using(crate::proofs::Prefixes::growing), unfolding(schema::specs::Texts::fixed_field))]
pub fn put_fixed(out: &mut Blob, number: u32, value: u64) -> Result<(), NoMemory>
    requires { number < 2 ^ 29 }
    ensures ok { OnOk result (out.new ≡ out.old ++ fixed_field number value) }
    ensures err { OnErr result (IsPrefix out.old out.new) }
    ensures typed { OnOk result (value < 2 ^ 64) }
{
    if value == 0 {
        return Ok(());
    }
    push_varint(out, number as u64 * 8 + 1)?;
    out.append(&value.to_le_bytes())?;
    Ok(())
}

/// Puts bytes that are not empty.
#[inline]
#[tactic(auto, using(crate::proofs::Prefixes::growing), unfolding(schema::specs::Texts::bytes_field))]
fn put_slice(out: &mut Blob, number: u32, bytes: &[u8]) -> Result<(), NoMemory>
    requires { number < 2 ^ 29 }
    ensures ok { OnOk result (out.new ≡ out.old ++ bytes_field number bytes.now) }
    ensures err { OnErr result (IsPrefix out.old out.new) }
{
    if bytes.is_empty() {
        return Ok(());
    }
    push_long(out, number, bytes)?;
    Ok(())
}

/// Puts bytes that are not empty.
#[inline]
pub fn put_bytes(out: &mut Blob, number: u32, bytes: &BytesRef<'_>) -> Result<(), NoMemory>
    requires { number < 2 ^ 29 }
    ensures ok { OnOk result (out.new ≡ out.old ++ bytes_field number bytes.now) }
    ensures err { OnErr result (IsPrefix out.old out.new) }
{
    put_slice(out, number, bytes.as_slice())?;
    Ok(())
}

/// Puts a text that is not empty.
#[inline]
pub fn put_text(out: &mut Blob, number: u32, text: &TextRef<'_>) -> Result<(), NoMemory>
    requires { number < 2 ^ 29 }
    ensures ok { OnOk result (out.new ≡ out.old ++ bytes_field number text.now) }
    ensures err { OnErr result (IsPrefix out.old out.new) }
    ensures typed { OnOk result (is_utf8 text.now ≡ true) }
{
    put_slice(out, number, text.as_bytes())?;
    Ok(())
}

/// Puts each element after its own tag and length, also an empty one.
#[tactic(auto, using(crate::proofs::Prefixes::growing))]
pub fn put_bytes_list(out: &mut Blob, number: u32, items: &[BytesRef<'_>]) -> Result<(), NoMemory>
    requires { number < 2 ^ 29 }
    ensures ok { OnOk result (out.new ≡ out.old ++ items_text number items.now) }
    ensures err { OnErr result (IsPrefix out.old out.new) }
{
    for item in items {
        if let Err(stop) = push_long(out, number, item.as_slice()) {
            return Err(stop);
        }
    }
    Ok(())
}

/// Puts each element after its own tag and length, also an empty one.
#[tactic(auto, using(crate::proofs::Types::each_next, crate::proofs::Prefixes::growing))]
pub fn put_text_list(out: &mut Blob, number: u32, items: &[TextRef<'_>]) -> Result<(), NoMemory>
    requires { number < 2 ^ 29 }
    ensures ok { OnOk result (out.new ≡ out.old ++ items_text number items.now) }
    ensures err { OnErr result (IsPrefix out.old out.new) }
    ensures typed { OnOk result (Each (λ text. is_utf8 text ≡ true) items.now) }
{
    for item in items {
        if let Err(stop) = push_long(out, number, item.as_bytes()) {
            return Err(stop);
        }
    }
    Ok(())
}

/// Puts a message, whose length is known, after its tag and length.
#[tactic(auto, using(crate::proofs::Prefixes::growing, schema_laws::proofs::Onto::long_onto, schema_laws::proofs::Onto::onto, schema_laws::proofs::Onto::onto_len))]
fn push_message<T: Rows, I: NewIndexes>(
    out: &mut Blob,
    number: u32,
    len: u64,
    message: &T,
    indexes: &I,
) -> Result<(), NoMemory>
    requires below { number < 2 ^ 29 }
    requires same { len ≡ len_onto T.shape 0 (moved (I.to indexes.now) T.shape (T.view message.now)) }
    requires room { len < 2 ^ 63 }
    ensures ok { OnOk result (out.new ≡ out.old ++ long_field number (spell T.shape (moved (I.to indexes.now) T.shape (T.view message.now)))) }
    ensures err { OnErr result (IsPrefix out.old out.new) }
    ensures typed { OnOk result (IsTyped T.shape (T.view message.now)) }
{
    push_varint(out, number as u64 * 8 + 2)?;
    push_varint(out, len)?;
    message.put_rows(indexes, out)?;
    Ok(())
}

/// Puts a message that is not empty.
#[tactic(auto, using(crate::proofs::Prefixes::growing, schema_laws::proofs::Lengths::bytes_field_le, crate::proofs::Types::none_put, crate::proofs::RowTexts::bytes_some, schema_laws::proofs::Onto::onto_len))]
pub fn put_message<T: Rows, I: NewIndexes>(
    out: &mut Blob,
    number: u32,
    message: &T,
    indexes: &I,
) -> Result<(), NoMemory>
    requires below { number < 2 ^ 29 }
    requires room { length (bytes_field number (spell T.shape (moved (I.to indexes.now) T.shape (T.view message.now)))) < 2 ^ 63 }
    ensures ok { OnOk result (out.new ≡ out.old ++ bytes_field number (spell T.shape (moved (I.to indexes.now) T.shape (T.view message.now)))) }
    ensures err { OnErr result (IsPrefix out.old out.new) }
    ensures typed { OnOk result (IsTyped T.shape (T.view message.now)) }
{
    let len = message.rows_len(indexes);
    if len == 0 {
        // This puts nothing. That the message is typed is known where its rows are put.
        message.put_rows(indexes, out)?;
        return Ok(());
    }
    push_message(out, number, len, message, indexes)?;
    Ok(())
}

/// Puts each message after its own tag and length, also an empty one.
#[tactic(auto, using(crate::proofs::Types::each_next, crate::proofs::Prefixes::growing))]
pub fn put_messages<T: Rows, I: NewIndexes>(
    out: &mut Blob,
    number: u32,
    items: &[T],
    indexes: &I,
) -> Result<(), NoMemory>
    requires below { number < 2 ^ 29 }
    requires room { length (items_text number (map (spell T.shape) (map (moved (I.to indexes.now) T.shape) (map T.view items.now)))) < 2 ^ 63 }
    ensures ok { OnOk result (out.new ≡ out.old ++ items_text number (map (spell T.shape) (map (moved (I.to indexes.now) T.shape) (map T.view items.now)))) }
    ensures err { OnErr result (IsPrefix out.old out.new) }
    ensures typed { OnOk result (Each (IsTyped T.shape) (map T.view items.now)) }
{
    for item in items {
        if let Err(stop) = push_message(out, number, item.rows_len(indexes), item, indexes) {
            return Err(stop);
        }
    }
    Ok(())
}

/// Puts the varints of numbers.
#[tactic(auto, using(crate::proofs::Types::each_next, crate::proofs::Prefixes::growing))]
fn push_packed<N: Number>(out: &mut Blob, items: &[N]) -> Result<(), NoMemory>
    ensures ok { OnOk result (out.new ≡ out.old ++ numbers_text N.format (map N.value items.now)) }
    ensures err { OnErr result (IsPrefix out.old out.new) }
    ensures typed { OnOk result (Each (FitsNumber N.format) (map N.value items.now)) }
{
    for item in items {
        if let Err(stop) = push_varint(out, item.to_varint()) {
            return Err(stop);
        }
    }
    Ok(())
}

/// Puts numbers, unless there are none, packed after one tag and length.
#[tactic(auto, using(crate::proofs::Types::none_fit, crate::proofs::Prefixes::growing, schema_laws::proofs::Onto::long_onto, schema_laws::proofs::Lengths::bytes_field_le, crate::proofs::RowTexts::left_out, crate::proofs::RowTexts::bytes_some))]
pub fn put_numbers<N: Number>(out: &mut Blob, number: u32, items: &[N]) -> Result<(), NoMemory>
    requires below { number < 2 ^ 29 }
    requires room { length (bytes_field number (numbers_text N.format (map N.value items.now))) < 2 ^ 63 }
    ensures ok { OnOk result (out.new ≡ out.old ++ bytes_field number (numbers_text N.format (map N.value items.now))) }
    ensures err { OnErr result (IsPrefix out.old out.new) }
    ensures typed { OnOk result (Each (FitsNumber N.format) (map N.value items.now)) }
{
    let len = packed_len(items);
    if len == 0 {
        return Ok(());
    }
    push_varint(out, number as u64 * 8 + 2)?;
    push_varint(out, len)?;
    push_packed(out, items)?;
    Ok(())
}

/// Puts eight bytes for each number, the low ones first.
#[tactic(auto, using(crate::proofs::Types::each_next, crate::proofs::Prefixes::growing))]
fn push_eights(out: &mut Blob, items: &[u64]) -> Result<(), NoMemory>
    ensures ok { OnOk result (out.new ≡ out.old ++ fixed_text items.now) }
    ensures err { OnErr result (IsPrefix out.old out.new) }
    ensures typed { OnOk result (Each (λ x. x < 2 ^ 64) items.now) }
{
    for item in items {
        if let Err(stop) = out.append(&item.to_le_bytes()) {
            return Err(stop);
        }
    }
    Ok(())
}

/// Puts eight-byte values, unless there are none, packed after one tag and length.
#[tactic(auto, using(crate::proofs::Prefixes::growing, schema_laws::proofs::Onto::long_onto, schema_laws::proofs::Lengths::bytes_field_le, crate::proofs::RowTexts::left_out, crate::proofs::RowTexts::bytes_some, schema_laws::proofs::FixedNumbers::fixed_len))]
pub fn put_fixed_list(out: &mut Blob, number: u32, items: &[u64]) -> Result<(), NoMemory>
    requires below { number < 2 ^ 29 }
    requires room { length (bytes_field number (fixed_text items.now)) < 2 ^ 63 }
    ensures ok { OnOk result (out.new ≡ out.old ++ bytes_field number (fixed_text items.now)) }
    ensures err { OnErr result (IsPrefix out.old out.new) }
    ensures typed { OnOk result (Each (λ x. x < 2 ^ 64) items.now) }
{
    if items.is_empty() {
        return Ok(());
    }
    push_varint(out, number as u64 * 8 + 2)?;
    push_varint(out, items.len() as u64 * 8)?;
    push_eights(out, items)?;
    Ok(())
}
