//! An attribute of the dictionary.
ghost use Rattle.std.specs.Prelude.{refl};
ghost use Rattle.schema.specs.Messages.{attribute};
ghost use Rattle.dict_rec.specs.Views.{attribute_view};

use any_value::{Value, put_value, take_value, value_row_len};
use pb_wire::{
    Blob, Field, NewIndexes, NoMemory, ReadFault, Rows, TableKind, Wire, index_len, put_index,
    take_number,
};
use std::alloc::Global;

/// An attribute of the dictionary: a key, a value and a unit.
#[derive(Debug, Drop)]
pub struct Attr<'a> {
    /// The key, an index into the string table.
    pub key_strindex: i32,
    pub value: Value<'a>,
    /// The unit, an index into the string table.
    pub unit_strindex: i32,
}

impl<'a> Rows for Attr<'a> {
    ghost shape = { attribute };

    ghost view = { attribute_view };

    ghost message = { tt };

    ghost lawful = { refl };

    fn rows_len<I: NewIndexes>(&self, indexes: &I) -> u64 {
        index_len(1, TableKind::String, &self.key_strindex, indexes)
            + value_row_len(2, &self.value)
            + index_len(3, TableKind::String, &self.unit_strindex, indexes)
    }

    #[tactic(auto, using(pb_wire::proofs::Prefixes::growing))]
    fn put_rows<I: NewIndexes>(&self, indexes: &I, out: &mut Blob) -> Result<(), NoMemory> {
        put_index(out, 1, TableKind::String, &self.key_strindex, indexes)?;
        put_value(out, 2, &self.value)?;
        put_index(out, 3, TableKind::String, &self.unit_strindex, indexes)?;
        Ok(())
    }
}

impl<'a> Wire<'a> for Attr<'a> {
    fn none(_alloc: Global) -> Attr<'a> {
        Attr {
            key_strindex: 0,
            value: Value::Empty,
            unit_strindex: 0,
        }
    }

    fn take(&mut self, alloc: Global, field: &Field<'a>) -> Result<(), ReadFault> {
        match field.number {
            1 => take_number(&mut self.key_strindex, field),
            2 => take_value(&mut self.value, alloc, field, 1),
            3 => take_number(&mut self.unit_strindex, field),
            _ => Ok(()),
        }
    }
}
