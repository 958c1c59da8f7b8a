//! A resource.
ghost use Rattle.std.specs.Prelude.{refl};
ghost use Rattle.schema.specs.Messages.{resource};
ghost use Rattle.prof_rec.specs.Views.{resource_view};

use any_value::KeyValue;
use pb_wire::{
    Blob, BytesRef, Field, List, NewIndexes, NoMemory, ReadFault, Rows, Wire, add_bytes,
    add_message, bytes_list_len, messages_len, number_len, put_bytes_list, put_messages,
    put_number, take_number,
};
use std::alloc::Global;

/// What was profiled: a process, a container, a host.
#[derive(Debug, Drop)]
pub struct Resource<'a> {
    pub attributes: List<KeyValue<'a>>,
    pub dropped_attributes_count: u32,
    /// Elements that are carried unread, each with its own bytes.
    pub opaque: List<BytesRef<'a>>,
}

impl<'a> Rows for Resource<'a> {
    ghost shape = { resource };

    ghost view = { resource_view };

    ghost message = { tt };

    ghost lawful = { refl };

    fn rows_len<I: NewIndexes>(&self, indexes: &I) -> u64 {
        messages_len(1, self.attributes.as_slice(), indexes)
            + number_len(2, self.dropped_attributes_count)
            + bytes_list_len(3, self.opaque.as_slice())
    }

    #[tactic(auto, using(pb_wire::proofs::Prefixes::growing))]
    fn put_rows<I: NewIndexes>(&self, indexes: &I, out: &mut Blob) -> Result<(), NoMemory> {
        put_messages(out, 1, self.attributes.as_slice(), indexes)?;
        put_number(out, 2, self.dropped_attributes_count)?;
        put_bytes_list(out, 3, self.opaque.as_slice())?;
        Ok(())
    }
}

impl<'a> Wire<'a> for Resource<'a> {
    fn none(alloc: Global) -> Resource<'a> {
        Resource {
            attributes: List::begin(alloc),
            dropped_attributes_count: 0,
            opaque: List::begin(alloc),
        }
    }

    fn take(&mut self, alloc: Global, field: &Field<'a>) -> Result<(), ReadFault> {
        match field.number {
            1 => add_message(&mut self.attributes, alloc, field),
            2 => take_number(&mut self.dropped_attributes_count, field),
            3 => add_bytes(&mut self.opaque, field),
            _ => Ok(()),
        }
    }
}
