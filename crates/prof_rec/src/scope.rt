//! An instrumentation scope.
ghost use Rattle.std.specs.Prelude.{refl};
ghost use Rattle.schema.specs.Messages.{scope};
ghost use Rattle.prof_rec.specs.Views.{scope_view};

use any_value::KeyValue;
use pb_wire::{
    Blob, Field, List, NewIndexes, NoMemory, ReadFault, Rows, TextRef, Wire, add_message,
    messages_len, number_len, put_messages, put_number, put_text, take_number, take_text, text_len,
};
use std::alloc::Global;

/// The library or component that made the profiles.
#[derive(Debug, Drop)]
pub struct Scope<'a> {
    pub name: TextRef<'a>,
    pub version: TextRef<'a>,
    pub attributes: List<KeyValue<'a>>,
    pub dropped_attributes_count: u32,
}

impl<'a> Rows for Scope<'a> {
    ghost shape = { scope };

    ghost view = { scope_view };

    ghost message = { tt };

    ghost lawful = { refl };

    fn rows_len<I: NewIndexes>(&self, indexes: &I) -> u64 {
        text_len(1, &self.name)
            + text_len(2, &self.version)
            + messages_len(3, self.attributes.as_slice(), indexes)
            + number_len(4, self.dropped_attributes_count)
    }

    #[tactic(auto, using(pb_wire::proofs::Prefixes::growing))]
    fn put_rows<I: NewIndexes>(&self, indexes: &I, out: &mut Blob) -> Result<(), NoMemory> {
        put_text(out, 1, &self.name)?;
        put_text(out, 2, &self.version)?;
        put_messages(out, 3, self.attributes.as_slice(), indexes)?;
        put_number(out, 4, self.dropped_attributes_count)?;
        Ok(())
    }
}

impl<'a> Wire<'a> for Scope<'a> {
    fn none(alloc: Global) -> Scope<'a> {
        Scope {
            name: TextRef::empty(),
            version: TextRef::empty(),
            attributes: List::begin(alloc),
            dropped_attributes_count: 0,
        }
    }

    fn take(&mut self, alloc: Global, field: &Field<'a>) -> Result<(), ReadFault> {
        match field.number {
            1 => take_text(&mut self.name, field),
            2 => take_text(&mut self.version, field),
            3 => add_message(&mut self.attributes, alloc, field),
            4 => take_number(&mut self.dropped_attributes_count, field),
            _ => Ok(()),
        }
    }
}
