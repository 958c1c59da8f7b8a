//! The type and the unit of values.
ghost use Rattle.std.specs.Prelude.{refl};
ghost use Rattle.schema.specs.Messages.{value_type};
ghost use Rattle.prof_rec.specs.Views.{value_type_view};

use pb_wire::{
    Blob, Field, NewIndexes, NoMemory, ReadFault, Rows, TableKind, Wire, index_len, put_index,
    take_number,
};
use std::alloc::Global;

/// The type and the unit of values.
#[derive(Clone, Copy, Debug, PartialEq, Eq)]
pub struct ValueType {
    /// What is counted, an index into the string table.
    pub type_strindex: i32,
    /// The unit, an index into the string table.
    pub unit_strindex: i32,
}

impl Rows for ValueType {
    ghost shape = { value_type };

    ghost view = { value_type_view };

    ghost message = { tt };

    ghost lawful = { refl };

    fn rows_len<I: NewIndexes>(&self, indexes: &I) -> u64 {
        index_len(1, TableKind::String, &self.type_strindex, indexes)
            + index_len(2, TableKind::String, &self.unit_strindex, indexes)
    }

    fn put_rows<I: NewIndexes>(&self, indexes: &I, out: &mut Blob) -> Result<(), NoMemory> {
        put_index(out, 1, TableKind::String, &self.type_strindex, indexes)?;
        put_index(out, 2, TableKind::String, &self.unit_strindex, indexes)?;
        Ok(())
    }
}

impl<'a> Wire<'a> for ValueType {
    fn none(_alloc: Global) -> ValueType {
        ValueType {
            type_strindex: 0,
            unit_strindex: 0,
        }
    }

    fn take(&mut self, _alloc: Global, field: &Field<'a>) -> Result<(), ReadFault> {
        match field.number {
            1 => take_number(&mut self.type_strindex, field),
            2 => take_number(&mut self.unit_strindex, field),
            _ => Ok(()),
        }
    }
}
