//! A mapping of the dictionary.
ghost use Rattle.std.specs.Prelude.{refl};
ghost use Rattle.schema.specs.Messages.{mapping};
ghost use Rattle.dict_rec.specs.Views.{mapping_view};

use pb_wire::{
    Blob, Field, List, NewIndexes, NoMemory, ReadFault, Rows, TableKind, Wire, add_number,
    index_len, indexes_len, number_len, put_index, put_indexes, put_number, take_number,
};
use std::alloc::Global;

/// A mapping of the dictionary: a part of a process's memory, and the file that is mapped there.
#[derive(Debug, Drop)]
pub struct Mapping {
    /// Where the part begins.
    pub memory_start: u64,
    /// Where it ends.
    pub memory_limit: u64,
    /// Where in the file it begins, in bytes.
    pub file_offset: u64,
    /// The name of the file, an index into the string table.
    pub filename_strindex: i32,
    /// Indexes into the attribute table.
    pub attribute_indices: List<i32>,
}

impl Rows for Mapping {
    ghost shape = { mapping };

    ghost view = { mapping_view };

    ghost message = { tt };

    ghost lawful = { refl };

    fn rows_len<I: NewIndexes>(&self, indexes: &I) -> u64 {
        number_len(1, self.memory_start)
            + number_len(2, self.memory_limit)
            + number_len(3, self.file_offset)
            + index_len(4, TableKind::String, &self.filename_strindex, indexes)
            + indexes_len(
                5,
                TableKind::Attribute,
                self.attribute_indices.as_slice(),
                indexes,
            )
    }

    #[tactic(auto, using(pb_wire::proofs::Prefixes::growing))]
    fn put_rows<I: NewIndexes>(&self, indexes: &I, out: &mut Blob) -> Result<(), NoMemory> {
        put_number(out, 1, self.memory_start)?;
        put_number(out, 2, self.memory_limit)?;
        put_number(out, 3, self.file_offset)?;
        put_index(out, 4, TableKind::String, &self.filename_strindex, indexes)?;
        put_indexes(
            out,
            5,
            TableKind::Attribute,
            self.attribute_indices.as_slice(),
            indexes,
        )?;
        Ok(())
    }
}

impl<'a> Wire<'a> for Mapping {
    fn none(alloc: Global) -> Mapping {
        Mapping {
            memory_start: 0,
            memory_limit: 0,
            file_offset: 0,
            filename_strindex: 0,
            attribute_indices: List::begin(alloc),
        }
    }

    fn take(&mut self, _alloc: Global, field: &Field<'a>) -> Result<(), ReadFault> {
        match field.number {
            1 => take_number(&mut self.memory_start, field),
            2 => take_number(&mut self.memory_limit, field),
            3 => take_number(&mut self.file_offset, field),
            4 => take_number(&mut self.filename_strindex, field),
            5 => add_number(&mut self.attribute_indices, field),
            _ => Ok(()),
        }
    }
}
