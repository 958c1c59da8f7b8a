//! A line of source.
ghost use Rattle.std.specs.Prelude.{refl};
ghost use Rattle.schema.specs.Messages.{line};
ghost use Rattle.dict_rec.specs.Views.{line_view};

use pb_wire::{
    Blob, Field, NewIndexes, NoMemory, ReadFault, Rows, TableKind, Wire, index_len, number_len,
    put_index, put_number, take_number,
};
use std::alloc::Global;

/// A line of source.
#[derive(Clone, Copy, Debug, PartialEq, Eq)]
pub struct Line {
    /// The function that the line is in, an index into the function table.
    pub function_index: i32,
    /// Its number, 0 where it is not known.
    pub line: i64,
    /// Its column, 0 where it is not known.
    pub column: i64,
}

impl Rows for Line {
    ghost shape = { line };

    ghost view = { line_view };

    ghost message = { tt };

    ghost lawful = { refl };

    fn rows_len<I: NewIndexes>(&self, indexes: &I) -> u64 {
        index_len(1, TableKind::Function, &self.function_index, indexes)
            + number_len(2, self.line)
            + number_len(3, self.column)
    }

    #[tactic(auto, using(pb_wire::proofs::Prefixes::growing))]
    fn put_rows<I: NewIndexes>(&self, indexes: &I, out: &mut Blob) -> Result<(), NoMemory> {
        put_index(out, 1, TableKind::Function, &self.function_index, indexes)?;
        put_number(out, 2, self.line)?;
        put_number(out, 3, self.column)?;
        Ok(())
    }
}

impl<'a> Wire<'a> for Line {
    fn none(_alloc: Global) -> Line {
        Line {
            function_index: 0,
            line: 0,
            column: 0,
        }
    }

    #[inline(always)]
    fn take(&mut self, _alloc: Global, field: &Field<'a>) -> Result<(), ReadFault> {
        match field.number {
            1 => take_number(&mut self.function_index, field),
            2 => take_number(&mut self.line, field),
            3 => take_number(&mut self.column, field),
            _ => Ok(()),
        }
    }
}
