//! The steps of a new dictionary's tables, over tables whose length nobody keeps.
ghost use Rattle.std.specs.Prelude.{◌≡◌, ◌+◌, ◌<◌, ◌≤◌, ◌++◌, ◌^◌, ◌∷◌, [], ℕ, length, IfOk, OnOk, OnErr, get_or};
ghost use Rattle.schema.specs.Texts.{items_text, long_field};
ghost use Rattle.schema.specs.Tables.{field_of};
ghost use Rattle.pb_wire.specs.TableKinds.{place_of, table_of};
ghost use Rattle.schema.specs.Prefix.{IsPrefix};
ghost use Rattle.key_tables.specs.Keys.{InternedIn, cut_to, lengths, text_from};

use crate::ByTable;
use pb_wire::{Blob, NoMemory, Payload, TableKind, long_len, put_field};
use std::hash::BuildHasher;
use std::sync::ledger::Ledger;
use tables::{BytesTable, Mark, Steps};

// The greatest number of entries of a table, whose indexes have 31 bits.
const MOST_ENTRIES: u32 = 0x7FFF_FFFF;

/// The tables of a new dictionary.
pub(crate) type Tables<S> = ByTable<BytesTable<S>>;

/// The length of an entry of these bytes with its tag and length, in bytes.
pub(crate) fn entry_len(kind: TableKind, key: &[u8]) -> u64
    ensures is { result ≡ length (long_field (field_of (table_of kind)) key.now) }
    ensures most { result ≤ 2 ^ 63 + 20 }
{
    long_len(kind.number(), key.len() as u64)
}

/// The place of a key in its table, where it goes to the end if it is new. A full table answers `NoMemory`.
pub(crate) fn intern_in<S: BuildHasher + Drop, L: Ledger>(
    tables: &mut Tables<S>,
    kind: TableKind,
    key: &[u8],
    steps: &mut Steps<L>,
) -> Result<u32, NoMemory>
    requires { length tables.old ≡ 7 }
    ensures interned { IfOk result (InternedIn (place_of (table_of kind)) tables.old key.now tables.new) }
    ensures same { OnErr result (tables.new ≡ tables.old) }
    ensures steps { steps.new ≤ steps.old + 1 }
{
    let table = tables.get_mut(kind);
    if table.len() >= MOST_ENTRIES {
        return Err(NoMemory);
    }
    table.intern(key, steps)
}

/// The numbers of keys.
pub(crate) fn marks<S: BuildHasher + Drop>(tables: &Tables<S>) -> [Mark; 7]
    requires { length tables.now ≡ 7 }
    ensures { result ≡ lengths tables.now }
{
    [
        tables.get(TableKind::Mapping).mark(),
        tables.get(TableKind::Location).mark(),
        tables.get(TableKind::Function).mark(),
        tables.get(TableKind::Link).mark(),
        tables.get(TableKind::String).mark(),
        tables.get(TableKind::Attribute).mark(),
        tables.get(TableKind::Stack).mark(),
    ]
}

/// Drops the keys that came after the marks. It takes no memory.
pub(crate) fn cut_back<S: BuildHasher + Drop>(tables: &mut Tables<S>, marks: &[Mark])
    requires seven { length tables.old ≡ length marks.now }
    requires within { (place : ℕ) → get_or marks.now place 0 ≤ length (get_or tables.old place []) }
    ensures { tables.new ≡ cut_to marks.now tables.old }
{
    for place in 0..marks.len() {
        tables.at_mut(place).back_to(marks[place]);
    }
}

/// Puts all keys at the end, each after its tag and length, in the order of the tables' fields.
pub(crate) fn put_tables<S: BuildHasher + Drop>(
    out: &mut Blob,
    tables: &[BytesTable<S>],
) -> Result<(), NoMemory>
    requires { length tables.now ≡ 7 }
    ensures front { IsPrefix out.old out.new }
    ensures ok { OnOk result (out.new ≡ out.old ++ text_from 1 tables.now) }
{
    for place in 0..tables.len() {
        if let Err(stop) = put_table(out, place as u32 + 1, &tables[place]) {
            return Err(stop);
        }
    }
    Ok(())
}

// Puts the keys of a table at the end, each after its tag and length.
fn put_table<S: BuildHasher + Drop>(
    out: &mut Blob,
    number: u32,
    table: &BytesTable<S>,
) -> Result<(), NoMemory>
    requires above { 1 ≤ number }
    requires below { number ≤ 536870911 }
    ensures front { IsPrefix out.old out.new }
    ensures ok { OnOk result (out.new ≡ out.old ++ items_text number table.now) }
{
    for place in 0..table.len() {
        if let Err(stop) = put_key(out, number, table, place) {
            return Err(stop);
        }
    }
    Ok(())
}

// Puts the key at this place at the end, after its tag and length.
fn put_key<S: BuildHasher + Drop>(
    out: &mut Blob,
    number: u32,
    table: &BytesTable<S>,
    place: u32,
) -> Result<(), NoMemory>
    requires above { 1 ≤ number }
    requires below { number ≤ 536870911 }
    requires within { place < length table.now }
    ensures ok { OnOk result (out.new ≡ out.old ++ long_field number (get_or table.now place [])) }
    ensures err { OnErr result (out.new ≡ out.old) }
{
    match table.get(place) {
        Some(key) => put_field(out, number, &Payload::Bytes(key)),
        None => Ok(()),
    }
}
