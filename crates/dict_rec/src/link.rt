//! A link of the dictionary.
ghost use Rattle.std.specs.Prelude.{refl};
ghost use Rattle.schema.specs.Messages.{link};
ghost use Rattle.dict_rec.specs.Views.{link_view};

use pb_wire::{
    Blob, BytesRef, Field, NewIndexes, NoMemory, ReadFault, Rows, Wire, bytes_len, put_bytes,
    take_bytes,
};
use std::alloc::Global;

/// A link of the dictionary: a span of a trace.
#[derive(Debug, Drop)]
pub struct Link<'a> {
    pub trace_id: BytesRef<'a>,
    pub span_id: BytesRef<'a>,
}

impl<'a> Rows for Link<'a> {
    ghost shape = { link };

    ghost view = { link_view };

    ghost message = { tt };

    ghost lawful = { refl };

    fn rows_len<I: NewIndexes>(&self, _indexes: &I) -> u64 {
        bytes_len(1, &self.trace_id) + bytes_len(2, &self.span_id)
    }

    fn put_rows<I: NewIndexes>(&self, _indexes: &I, out: &mut Blob) -> Result<(), NoMemory> {
        put_bytes(out, 1, &self.trace_id)?;
        put_bytes(out, 2, &self.span_id)?;
        Ok(())
    }
}

impl<'a> Wire<'a> for Link<'a> {
    fn none(_alloc: Global) -> Link<'a> {
        Link {
            trace_id: BytesRef::empty(),
            span_id: BytesRef::empty(),
        }
    }

    fn take(&mut self, _alloc: Global, field: &Field<'a>) -> Result<(), ReadFault> {
        match field.number {
            1 => take_bytes(&mut self.trace_id, field),
            2 => take_bytes(&mut self.span_id, field),
            _ => Ok(()),
        }
    }
}
