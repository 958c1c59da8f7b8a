//! A location of the dictionary.
ghost use Rattle.std.specs.Prelude.{refl};
ghost use Rattle.schema.specs.Messages.{location};
ghost use Rattle.dict_rec.specs.Views.{location_view};

use crate::Line;
use pb_wire::{
    Blob, Field, List, NewIndexes, NoMemory, ReadFault, Rows, TableKind, Wire, add_message,
    add_number, index_len, indexes_len, messages_len, number_len, put_index, put_indexes,
    put_messages, put_number, take_number,
};
use std::alloc::Global;

/// A location of the dictionary: an address, and the lines of source that it stands for.
#[derive(Debug, Drop)]
pub struct Location {
    /// The mapping that the address is in, an index into the mapping table.
    pub mapping_index: i32,
    pub address: u64,
    /// The lines, from the innermost call on: each was inlined into the one after it.
    pub lines: List<Line>,
    /// Indexes into the attribute table.
    pub attribute_indices: List<i32>,
}

impl Rows for Location {
    ghost shape = { location };

    ghost view = { location_view };

    ghost message = { tt };

    ghost lawful = { refl };

    fn rows_len<I: NewIndexes>(&self, indexes: &I) -> u64 {
        index_len(1, TableKind::Mapping, &self.mapping_index, indexes)
            + number_len(2, self.address)
            + messages_len(3, self.lines.as_slice(), indexes)
            + indexes_len(
                4,
                TableKind::Attribute,
                self.attribute_indices.as_slice(),
                indexes,
            )
    }

    #[tactic(auto, using(pb_wire::proofs::Prefixes::growing))]
    fn put_rows<I: NewIndexes>(&self, indexes: &I, out: &mut Blob) -> Result<(), NoMemory> {
        put_index(out, 1, TableKind::Mapping, &self.mapping_index, indexes)?;
        put_number(out, 2, self.address)?;
        put_messages(out, 3, self.lines.as_slice(), indexes)?;
        put_indexes(
            out,
            4,
            TableKind::Attribute,
            self.attribute_indices.as_slice(),
            indexes,
        )?;
        Ok(())
    }
}

impl<'a> Wire<'a> for Location {
    fn none(alloc: Global) -> Location {
        Location {
            mapping_index: 0,
            address: 0,
            lines: List::begin(alloc),
            attribute_indices: List::begin(alloc),
        }
    }

    #[inline(always)]
    fn take(&mut self, alloc: Global, field: &Field<'a>) -> Result<(), ReadFault> {
        match field.number {
            1 => take_number(&mut self.mapping_index, field),
            2 => take_number(&mut self.address, field),
            3 => add_message(&mut self.lines, alloc, field),
            4 => add_number(&mut self.attribute_indices, field),
            _ => Ok(()),
        }
    }
}
