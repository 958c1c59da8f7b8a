//! A whole message.
ghost use Rattle.std.specs.Prelude.{refl};
ghost use Rattle.schema.specs.Messages.{envelope};
ghost use Rattle.otlp_msg.specs.Views.{message_view};

use dict_rec::Dictionary;
use pb_wire::{
    Blob, Field, List, NewIndexes, NoMemory, ReadFault, Rows, Wire, add_message, message_len,
    messages_len, put_message, put_messages, take_message,
};
use prof_rec::{ResourceList, ResourceProfiles};
use std::alloc::Global;

/// A message: its resource records, and the dictionary that they share.
#[derive(Debug, Drop)]
pub struct Message<'a> {
    pub records: ResourceList<'a>,
    pub dictionary: Dictionary<'a>,
}

impl<'a> Rows for Message<'a> {
    ghost shape = { envelope };

    ghost view = { message_view };

    ghost message = { tt };

    ghost lawful = { refl };

    fn rows_len<I: NewIndexes>(&self, indexes: &I) -> u64 {
        messages_len::<ResourceProfiles, I>(1, self.records.as_slice(), indexes)
            + message_len(2, &self.dictionary, indexes)
    }

    fn put_rows<I: NewIndexes>(&self, indexes: &I, out: &mut Blob) -> Result<(), NoMemory> {
        put_messages::<ResourceProfiles, I>(out, 1, self.records.as_slice(), indexes)?;
        put_message(out, 2, &self.dictionary, indexes)?;
        Ok(())
    }
}

impl<'a> Wire<'a> for Message<'a> {
    fn none(alloc: Global) -> Message<'a> {
        Message {
            records: List::begin(alloc),
            dictionary: Dictionary::none(alloc),
        }
    }

    fn take(&mut self, alloc: Global, field: &Field<'a>) -> Result<(), ReadFault> {
        match field.number {
            1 => add_message::<ResourceProfiles>(&mut self.records, alloc, field),
            2 => take_message(&mut self.dictionary, alloc, field),
            _ => Ok(()),
        }
    }
}
