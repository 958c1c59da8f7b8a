//! A function of the dictionary.
ghost use Rattle.std.specs.Prelude.{refl};
ghost use Rattle.schema.specs.Messages.{function};
ghost use Rattle.dict_rec.specs.Views.{function_view};

use pb_wire::{
    Blob, Field, NewIndexes, NoMemory, ReadFault, Rows, TableKind, Wire, index_len, number_len,
    put_index, put_number, take_number,
};
use std::alloc::Global;

/// A function of the dictionary.
#[derive(Clone, Copy, Debug, PartialEq, Eq)]
pub struct Function {
    /// The name as a reader knows it, an index into the string table.
    pub name_strindex: i32,
    /// The name as the system knows it, an index into the string table.
    pub system_name_strindex: i32,
    /// The file of source, an index into the string table.
    pub filename_strindex: i32,
    /// The number of the line where the function begins.
    pub start_line: i64,
}

impl Rows for Function {
    ghost shape = { function };

    ghost view = { function_view };

    ghost message = { tt };

    ghost lawful = { refl };

    fn rows_len<I: NewIndexes>(&self, indexes: &I) -> u64 {
        index_len(1, TableKind::String, &self.name_strindex, indexes)
            + index_len(2, TableKind::String, &self.system_name_strindex, indexes)
            + index_len(3, TableKind::String, &self.filename_strindex, indexes)
            + number_len(4, self.start_line)
    }

    #[tactic(auto, using(pb_wire::proofs::Prefixes::growing))]
    fn put_rows<I: NewIndexes>(&self, indexes: &I, out: &mut Blob) -> Result<(), NoMemory> {
        put_index(out, 1, TableKind::String, &self.name_strindex, indexes)?;
        put_index(
            out,
            2,
            TableKind::String,
            &self.system_name_strindex,
            indexes,
        )?;
        put_index(out, 3, TableKind::String, &self.filename_strindex, indexes)?;
        put_number(out, 4, self.start_line)?;
        Ok(())
    }
}

impl<'a> Wire<'a> for Function {
    fn none(_alloc: Global) -> Function {
        Function {
            name_strindex: 0,
            system_name_strindex: 0,
            filename_strindex: 0,
            start_line: 0,
        }
    }

    #[inline(always)]
    fn take(&mut self, _alloc: Global, field: &Field<'a>) -> Result<(), ReadFault> {
        match field.number {
            1 => take_number(&mut self.name_strindex, field),
            2 => take_number(&mut self.system_name_strindex, field),
            3 => take_number(&mut self.filename_strindex, field),
            4 => take_number(&mut self.start_line, field),
            _ => Ok(()),
        }
    }
}
