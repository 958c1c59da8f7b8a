//! The field of a draft's dictionary.
ghost use Rattle.std.specs.Prelude.{◌≡◌, ◌++◌, length, take, OnOk, OnErr};
ghost use Rattle.schema.specs.Texts.{long_field};
ghost use Rattle.schema.specs.Prefix.{IsPrefix};
ghost use Rattle.key_tables.specs.Keys.{keys_text};

use key_tables::KeyTables;
use part_text::Ending;
use pb_wire::{Blob, NoMemory, long_len, put_varint};
use std::hash::BuildHasher;
use std::marker::Model;

/// The number of the dictionary's field in a message.
pub const DICTIONARY: u32 = 2;

// Its tag.
const DICTIONARY_TAG: u64 = 18;

/// The field of a message that holds these seven tables.
#[derive(Drop)]
pub struct DictionaryField<'a, S: BuildHasher> {
    tables: &'a KeyTables<S>,
}

impl<'a, S: BuildHasher> Model for DictionaryField<'a, S> {
    ghost use Rattle.std.specs.Prelude.{◌≡◌, length};
    ghost use Rattle.key_tables.specs.Keys.{Keys};

    ghost Value = { Keys };

    ghost view = { λ d. d.tables.now };

    ghost invariant = { λ d. length d.tables.now ≡ 7 };
}

impl<'a, S: BuildHasher + Drop> DictionaryField<'a, S> {
    /// The field of these tables.
    pub fn of(tables: &'a KeyTables<S>) -> DictionaryField<'a, S>
        requires { length tables.now ≡ 7 }
        ensures { result ≡ tables.now }
    {
        DictionaryField { tables }
    }
}

impl<'a, S: BuildHasher + Drop> Ending for DictionaryField<'a, S> {
    ghost text = { λ keys. long_field 2 (keys_text keys) };

    fn len(&self) -> u64 {
        long_len(DICTIONARY, self.tables.text_len())
    }

    fn put(&self, out: &mut Blob) -> Result<(), NoMemory> {
        put_dictionary(out, self.tables)
    }
}

// Puts the field at the end. Memory for it is taken first.
fn put_dictionary<S: BuildHasher + Drop>(
    out: &mut Blob,
    tables: &KeyTables<S>,
) -> Result<(), NoMemory>
    requires { length tables.now ≡ 7 }
    ensures front { IsPrefix out.old out.new }
    ensures ok { OnOk result (out.new ≡ out.old ++ long_field 2 (keys_text tables.now)) }
{
    let len = tables.text_len();
    out.reserve(long_len(DICTIONARY, len) as usize)?;
    put_varint(out, DICTIONARY_TAG)?;
    put_varint(out, len)?;
    tables.put_keys(out)?;
    Ok(())
}
