//! The profiles of one resource.
ghost use Rattle.std.specs.Prelude.{refl};
ghost use Rattle.schema.specs.Messages.{resource_profiles};
ghost use Rattle.prof_rec.specs.Views.{resource_profiles_view};

use crate::{Resource, ScopeProfiles};
use pb_wire::{
    Blob, Field, List, NewIndexes, NoMemory, ReadFault, Rows, TextRef, Wire, add_message,
    message_len, messages_len, put_message, put_messages, put_text, take_message, take_text,
    text_len,
};
use std::alloc::Global;

/// The profiles of one resource.
#[derive(Debug, Drop)]
pub struct ResourceProfiles<'a> {
    pub resource: Resource<'a>,
    pub scope_profiles: List<ScopeProfiles<'a>>,
    /// The URL of the schema that the resource follows.
    pub schema_url: TextRef<'a>,
}

/// A list of resource records.
pub type ResourceList<'a> = List<ResourceProfiles<'a>>;

impl<'a> Rows for ResourceProfiles<'a> {
    ghost shape = { resource_profiles };

    ghost view = { resource_profiles_view };

    ghost message = { tt };

    ghost lawful = { refl };

    fn rows_len<I: NewIndexes>(&self, indexes: &I) -> u64 {
        message_len(1, &self.resource, indexes)
            + messages_len(2, self.scope_profiles.as_slice(), indexes)
            + text_len(3, &self.schema_url)
    }

    #[tactic(auto, using(pb_wire::proofs::Prefixes::growing))]
    fn put_rows<I: NewIndexes>(&self, indexes: &I, out: &mut Blob) -> Result<(), NoMemory> {
        put_message(out, 1, &self.resource, indexes)?;
        put_messages(out, 2, self.scope_profiles.as_slice(), indexes)?;
        put_text(out, 3, &self.schema_url)?;
        Ok(())
    }
}

impl<'a> Wire<'a> for ResourceProfiles<'a> {
    fn none(alloc: Global) -> ResourceProfiles<'a> {
        ResourceProfiles {
            resource: Resource::none(alloc),
            scope_profiles: List::begin(alloc),
            schema_url: TextRef::empty(),
        }
    }

    fn take(&mut self, alloc: Global, field: &Field<'a>) -> Result<(), ReadFault> {
        match field.number {
            1 => take_message(&mut self.resource, alloc, field),
            2 => add_message(&mut self.scope_profiles, alloc, field),
            3 => take_text(&mut self.schema_url, field),
            _ => Ok(()),
        }
    }
}
