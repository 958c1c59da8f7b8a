//! The rows of a message that hold indexes: their lengths in bytes, and writing them with new indexes. After an error a part of
//! the row may be at the end of `out`.
ghost use Rattle.std.specs.Prelude.{◌≡◌, ◌<◌, ◌^◌, ◌++◌, length, map, OnOk, OnErr};
ghost use Rattle.schema.specs.Each.{Each};
ghost use Rattle.schema.specs.Shape.{I32};
ghost use Rattle.schema.specs.Texts.{FitsNumber, bytes_field, number_field, number_to, numbers_text};
ghost use Rattle.schema.specs.Prefix.{IsPrefix};
ghost use Rattle.pb_wire.specs.TableKinds.{table_of};

use crate::put::{push_varint, varint_len};
use crate::put_rows::put_number;
use crate::{Blob, NewIndexes, NoMemory, Number, TableKind, long_len, number_len};

/// The length of the row of an index.
#[inline(always)]
pub fn index_len<I: NewIndexes>(number: u32, table: TableKind, index: &i32, indexes: &I) -> u64
    requires { number < 2 ^ 29 }
    ensures { result ≡ length (number_field number (number_to I32 (I.to indexes.now (table_of table) index.now))) }
{
    number_len(number, indexes.new(table, index))
}

/// Puts the new index, unless it is 0. That the old one has 32 bits is known where it is read.
#[inline(always)]
pub fn put_index<I: NewIndexes>(
    out: &mut Blob,
    number: u32,
    table: TableKind,
    index: &i32,
    indexes: &I,
) -> Result<(), NoMemory>
    requires { number < 2 ^ 29 }
    ensures ok { OnOk result (out.new ≡ out.old ++ number_field number (number_to I32 (I.to indexes.now (table_of table) index.now))) }
    ensures err { OnErr result (IsPrefix out.old out.new) }
    ensures typed { OnOk result (FitsNumber I32 index.now) }
{
    let _old = *index;
    put_number(out, number, indexes.new(table, index))?;
    Ok(())
}

/// The varint of a new index. That the old one has 32 bits is known where it is read.
#[inline(always)]
fn new_varint<I: NewIndexes>(table: TableKind, index: &i32, indexes: &I) -> u64
    ensures varint { result ≡ number_to I32 (I.to indexes.now (table_of table) index.now) }
    ensures fits { FitsNumber I32 index.now }
{
    let _old = *index;
    indexes.new(table, index).to_varint()
}

/// The length of packed indexes.
fn packed_len<I: NewIndexes>(table: TableKind, items: &[i32], indexes: &I) -> u64
    requires { length (numbers_text I32 (map (I.to indexes.now (table_of table)) (map (λ i. i) items.now))) < 2 ^ 63 }
    ensures { result ≡ length (numbers_text I32 (map (I.to indexes.now (table_of table)) (map (λ i. i) items.now))) }
{
    let mut len = 0;
    for item in items {
        len += varint_len(new_varint(table, item, indexes)) as u64;
    }
    len
}

/// The length of the row of packed indexes.
#[tactic(auto, using(schema_laws::proofs::Lengths::bytes_field_le, crate::proofs::RowTexts::bytes_none, crate::proofs::RowTexts::bytes_some, schema_laws::proofs::Onto::long_len))]
pub fn indexes_len<I: NewIndexes>(number: u32, table: TableKind, items: &[i32], indexes: &I) -> u64
    requires below { number < 2 ^ 29 }
    requires room { length (bytes_field number (numbers_text I32 (map (I.to indexes.now (table_of table)) (map (λ i. i) items.now)))) < 2 ^ 63 }
    ensures { result ≡ length (bytes_field number (numbers_text I32 (map (I.to indexes.now (table_of table)) (map (λ i. i) items.now)))) }
{
    let len = packed_len(table, items, indexes);
    if len == 0 {
        return 0;
    }
    long_len(number, len)
}

/// Puts the varints of new indexes.
#[tactic(auto, using(crate::proofs::Types::each_next, crate::proofs::Prefixes::growing))]
fn push_packed<I: NewIndexes>(
    out: &mut Blob,
    table: TableKind,
    items: &[i32],
    indexes: &I,
) -> Result<(), NoMemory>
    ensures ok { OnOk result (out.new ≡ out.old ++ numbers_text I32 (map (I.to indexes.now (table_of table)) (map (λ i. i) items.now))) }
    ensures err { OnErr result (IsPrefix out.old out.new) }
    ensures typed { OnOk result (Each (FitsNumber I32) (map (λ i. i) items.now)) }
{
    for item in items {
        if let Err(stop) = push_varint(out, new_varint(table, item, indexes)) {
            return Err(stop);
        }
    }
    Ok(())
}

/// Puts the new indexes, unless there are none, packed after one tag and length.
#[tactic(auto, using(crate::proofs::Prefixes::growing, schema_laws::proofs::Onto::long_onto, schema_laws::proofs::Lengths::bytes_field_le, crate::proofs::RowTexts::left_out, crate::proofs::RowTexts::bytes_some))]
pub fn put_indexes<I: NewIndexes>(
    out: &mut Blob,
    number: u32,
    table: TableKind,
    items: &[i32],
    indexes: &I,
) -> Result<(), NoMemory>
    requires below { number < 2 ^ 29 }
    requires room { length (bytes_field number (numbers_text I32 (map (I.to indexes.now (table_of table)) (map (λ i. i) items.now)))) < 2 ^ 63 }
    ensures ok { OnOk result (out.new ≡ out.old ++ bytes_field number (numbers_text I32 (map (I.to indexes.now (table_of table)) (map (λ i. i) items.now)))) }
    ensures err { OnErr result (IsPrefix out.old out.new) }
    ensures typed { OnOk result (Each (FitsNumber I32) (map (λ i. i) items.now)) }
{
    let len = packed_len(table, items, indexes);
    if len == 0 {
        return Ok(());
    }
    push_varint(out, number as u64 * 8 + 2)?;
    push_varint(out, len)?;
    push_packed(out, table, items, indexes)?;
    Ok(())
}
