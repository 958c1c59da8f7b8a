//! A key and its value as a message of the schema: an attribute, whose value has depth 1.
ghost use Rattle.std.specs.Prelude.{refl};
ghost use Rattle.schema.specs.Messages.{key_value};
ghost use Rattle.any_value.specs.Views.{attribute_view};

use crate::lengths::value_row_len;
use crate::reading::take_value;
use crate::value::{KeyValue, Value};
use crate::writing::put_value;
use pb_wire::{
    Blob, Field, NewIndexes, NoMemory, ReadFault, Rows, TextRef, Wire, put_text, take_text,
    text_len,
};
use std::alloc::Global;

impl<'a> Rows for KeyValue<'a> {
    ghost shape = { key_value 1 };

    ghost view = { attribute_view };

    ghost message = { tt };

    ghost lawful = { refl };

    fn rows_len<I: NewIndexes>(&self, _indexes: &I) -> u64 {
        text_len(1, &self.key) + value_row_len(2, &self.value)
    }

    #[tactic(auto, using(pb_wire::proofs::Prefixes::growing))]
    fn put_rows<I: NewIndexes>(&self, _indexes: &I, out: &mut Blob) -> Result<(), NoMemory> {
        put_text(out, 1, &self.key)?;
        put_value(out, 2, &self.value)?;
        Ok(())
    }
}

impl<'a> Wire<'a> for KeyValue<'a> {
    fn none(_alloc: Global) -> KeyValue<'a> {
        KeyValue {
            key: TextRef::empty(),
            value: Value::Empty,
        }
    }

    fn take(&mut self, alloc: Global, field: &Field<'a>) -> Result<(), ReadFault> {
        match field.number {
            1 => take_text(&mut self.key, field),
            2 => take_value(&mut self.value, alloc, field, 1),
            _ => Ok(()),
        }
    }
}
