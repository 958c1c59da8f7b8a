//! The bytes of a draft.
ghost use Rattle.std.specs.Prelude.{◌≡◌, ◌+◌, ◌≤◌, ◌^◌, ◌++◌, length, IfOk, IfErr};
ghost use Rattle.schema.specs.Texts.{long_field};
ghost use Rattle.key_tables.specs.Keys.{keys_text};
ghost use Rattle.draft_contents.specs.Contents.{contents, whole_text};

use crate::dictionary::{DICTIONARY, DictionaryField};
use draft_records::Records;
use key_tables::KeyTables;
use pb_wire::{Blob, NoMemory, long_len};
use std::alloc::Global;
use std::hash::BuildHasher;

/// The number of bytes of the whole message, where its records have so many. It takes no memory.
pub fn whole_len<S: BuildHasher + Drop>(tables: &KeyTables<S>, records_len: u64) -> u64
    requires { records_len ≤ 2 ^ 63 }
    ensures { result ≡ records_len + length (long_field 2 (keys_text tables.now)) }
{
    records_len + long_len(DICTIONARY, tables.text_len())
}

/// The whole message: the records, and the dictionary after them. When out of memory both are handed back.
pub fn whole_bytes<S: BuildHasher + Drop>(
    tables: KeyTables<S>,
    records: Records,
) -> Result<Blob, (KeyTables<S>, Records)>
    requires { length tables ≡ 7 }
    ensures ok { IfOk result (λ whole. whole ≡ whole_text (contents tables records)) }
    ensures tables { IfErr result (λ back. back.0 ≡ tables) }
    ensures records { IfErr result (λ back. back.1 ≡ records) }
{
    match records.finish(&DictionaryField::of(&tables)) {
        Ok(bytes) => Ok(bytes),
        Err((records, _)) => Err((tables, records)),
    }
}

/// The same as a copy.
///
/// # Errors
///
/// Out of memory.
pub fn copied_bytes<S: BuildHasher + Drop>(
    alloc: Global,
    tables: &KeyTables<S>,
    records: &Records,
) -> Result<Blob, NoMemory>
    requires { length tables.now ≡ 7 }
    ensures { IfOk result (λ whole. whole ≡ whole_text (contents tables.now records.now)) }
{
    let bytes = records.text(alloc, &DictionaryField::of(tables))?;
    Ok(bytes)
}
