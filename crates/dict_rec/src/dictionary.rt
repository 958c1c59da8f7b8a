//! The dictionary of a message: its seven tables.
ghost use Rattle.std.specs.Prelude.{◌≡◌, ◌++◌, ◌<◌, ◌^◌, length, map, refl, OnOk, OnErr};
ghost use Rattle.schema.specs.Each.{Each};
ghost use Rattle.schema.specs.Merge.{merge_all};
ghost use Rattle.schema.specs.Messages.{dictionary, entries_in};
ghost use Rattle.schema.specs.Moved.{moved};
ghost use Rattle.schema.specs.ReadBack.{IsReadBack};
ghost use Rattle.schema.specs.Shape.{empty};
ghost use Rattle.schema.specs.Tables.{every_table};
ghost use Rattle.schema.specs.Spell.{spell};
ghost use Rattle.schema.specs.Texts.{items_text};
ghost use Rattle.schema.specs.Typed.{IsTyped};
ghost use Rattle.schema.specs.Prefix.{IsPrefix};
ghost use Rattle.pb_wire.specs.Answers.{Reads};
ghost use Rattle.dict_rec.specs.Views.{dictionary_view};

use crate::{Attr, Function, Link, Location, Mapping, Stack};
use pb_wire::{
    Blob, Field, List, NewIndexes, NoMemory, Pieces, ReadFault, Rows, TextRef, Wire, add_message,
    add_text, messages_len, put_messages, put_text_list, text_list_len,
};
use std::alloc::Global;

/// The seven tables, into which the records and the entries of other tables point.
#[derive(Debug, Drop)]
pub struct Dictionary<'a> {
    pub mapping_table: List<Mapping>,
    pub location_table: List<Location>,
    pub function_table: List<Function>,
    pub link_table: List<Link<'a>>,
    pub string_table: List<TextRef<'a>>,
    pub attribute_table: List<Attr<'a>>,
    pub stack_table: List<Stack>,
}

impl<'a> Dictionary<'a> {
    /// How many entries each table has, in the order of the fields. It takes no memory.
    pub fn lengths(&self) -> [usize; 7]
        ensures { result ≡ map (λ T. length (entries_in (dictionary_view self.now) T)) every_table }
    {
        [
            self.mapping_table.len(),
            self.location_table.len(),
            self.function_table.len(),
            self.link_table.len(),
            self.string_table.len(),
            self.attribute_table.len(),
            self.stack_table.len(),
        ]
    }
}

impl<'a> Rows for Dictionary<'a> {
    ghost shape = { dictionary };

    ghost view = { dictionary_view };

    ghost message = { tt };

    ghost lawful = { refl };

    fn rows_len<I: NewIndexes>(&self, indexes: &I) -> u64 {
        table_len(1, &self.mapping_table, indexes)
            + table_len(2, &self.location_table, indexes)
            + table_len(3, &self.function_table, indexes)
            + table_len(4, &self.link_table, indexes)
            + text_list_len(5, self.string_table.as_slice())
            + table_len(6, &self.attribute_table, indexes)
            + table_len(7, &self.stack_table, indexes)
    }

    #[tactic(auto, using(pb_wire::proofs::Prefixes::growing))]
    fn put_rows<I: NewIndexes>(&self, indexes: &I, out: &mut Blob) -> Result<(), NoMemory> {
        put_table(out, 1, &self.mapping_table, indexes)?;
        put_table(out, 2, &self.location_table, indexes)?;
        put_table(out, 3, &self.function_table, indexes)?;
        put_table(out, 4, &self.link_table, indexes)?;
        put_text_list(out, 5, self.string_table.as_slice())?;
        put_table(out, 6, &self.attribute_table, indexes)?;
        put_table(out, 7, &self.stack_table, indexes)?;
        Ok(())
    }
}

impl<'a> Wire<'a> for Dictionary<'a> {
    fn none(alloc: Global) -> Dictionary<'a> {
        Dictionary {
            mapping_table: List::begin(alloc),
            location_table: List::begin(alloc),
            function_table: List::begin(alloc),
            link_table: List::begin(alloc),
            string_table: List::begin(alloc),
            attribute_table: List::begin(alloc),
            stack_table: List::begin(alloc),
        }
    }

    fn take(&mut self, alloc: Global, field: &Field<'a>) -> Result<(), ReadFault> {
        match field.number {
            1 => add_message(&mut self.mapping_table, alloc, field),
            2 => add_message(&mut self.location_table, alloc, field),
            3 => add_message(&mut self.function_table, alloc, field),
            4 => add_message(&mut self.link_table, alloc, field),
            5 => add_text(&mut self.string_table, field),
            6 => add_message(&mut self.attribute_table, alloc, field),
            7 => add_message(&mut self.stack_table, alloc, field),
            _ => Ok(()),
        }
    }
}

// The length of the row of a table, in bytes.
fn table_len<T: Rows, I: NewIndexes>(number: u32, table: &List<T>, indexes: &I) -> u64
    requires below { number < 2 ^ 29 }
    requires room { length (items_text number (map (spell T.shape) (map (moved (I.to indexes.now) T.shape) (map T.view table.now)))) < 2 ^ 63 }
    ensures { result ≡ length (items_text number (map (spell T.shape) (map (moved (I.to indexes.now) T.shape) (map T.view table.now)))) }
{
    messages_len(number, table.as_slice(), indexes)
}

// Puts the row of a table.
fn put_table<T: Rows, I: NewIndexes>(
    out: &mut Blob,
    number: u32,
    table: &List<T>,
    indexes: &I,
) -> Result<(), NoMemory>
    requires below { number < 2 ^ 29 }
    requires room { length (items_text number (map (spell T.shape) (map (moved (I.to indexes.now) T.shape) (map T.view table.now)))) < 2 ^ 63 }
    ensures ok { OnOk result (out.new ≡ out.old ++ items_text number (map (spell T.shape) (map (moved (I.to indexes.now) T.shape) (map T.view table.now)))) }
    ensures err { OnErr result (IsPrefix out.old out.new) }
    ensures typed { OnOk result (Each (IsTyped T.shape) (map T.view table.now)) }
{
    put_messages(out, number, table.as_slice(), indexes)
}

/// The dictionary of the joined pieces, or the first fault in written order.
pub fn decode_dictionary<'a>(
    alloc: Global,
    pieces: &Pieces<'a>,
) -> Result<Dictionary<'a>, ReadFault>
    ensures { Reads dictionary_view result (merge_all dictionary (empty dictionary) pieces.now) }
{
    Dictionary::read(alloc, pieces)
}

/// Puts the canonical spelling of a dictionary at the end, all of it or nothing. It is read as this dictionary, if no AnyValue
/// is too deep for a file.
pub fn encode_dictionary(tables: &Dictionary<'_>, out: &mut Blob) -> Result<(), NoMemory>
    requires { length (spell dictionary (dictionary_view tables.now)) < 2 ^ 63 }
    ensures ok { OnOk result (out.new ≡ out.old ++ spell dictionary (dictionary_view tables.now)) }
    ensures err { OnErr result (out.new ≡ out.old) }
    ensures back { OnOk result (IsReadBack dictionary (dictionary_view tables.now)) }
{
    tables.write(out)
}

/// The length of the canonical spelling of a dictionary, in bytes. It takes no memory.
pub fn dictionary_len(tables: &Dictionary<'_>) -> u64
    requires { length (spell dictionary (dictionary_view tables.now)) < 2 ^ 63 }
    ensures { result ≡ length (spell dictionary (dictionary_view tables.now)) }
{
    tables.written_len()
}
