//! A stack of the dictionary.
ghost use Rattle.std.specs.Prelude.{refl};
ghost use Rattle.schema.specs.Messages.{stack};
ghost use Rattle.dict_rec.specs.Views.{stack_view};

use pb_wire::{
    Blob, Field, List, NewIndexes, NoMemory, ReadFault, Rows, TableKind, Wire, add_number,
    indexes_len, put_indexes,
};
use std::alloc::Global;

/// A stack of the dictionary.
#[derive(Debug, Drop)]
pub struct Stack {
    /// The locations from the innermost call on, indexes into the location table.
    pub location_indices: List<i32>,
}

impl Rows for Stack {
    ghost shape = { stack };

    ghost view = { stack_view };

    ghost message = { tt };

    ghost lawful = { refl };

    fn rows_len<I: NewIndexes>(&self, indexes: &I) -> u64 {
        indexes_len(
            1,
            TableKind::Location,
            self.location_indices.as_slice(),
            indexes,
        )
    }

    fn put_rows<I: NewIndexes>(&self, indexes: &I, out: &mut Blob) -> Result<(), NoMemory> {
        put_indexes(
            out,
            1,
            TableKind::Location,
            self.location_indices.as_slice(),
            indexes,
        )?;
        Ok(())
    }
}

impl<'a> Wire<'a> for Stack {
    fn none(alloc: Global) -> Stack {
        Stack {
            location_indices: List::begin(alloc),
        }
    }

    fn take(&mut self, _alloc: Global, field: &Field<'a>) -> Result<(), ReadFault> {
        match field.number {
            1 => add_number(&mut self.location_indices, field),
            _ => Ok(()),
        }
    }
}
