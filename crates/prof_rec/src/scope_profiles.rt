//! The profiles of one scope.
ghost use Rattle.std.specs.Prelude.{refl};
ghost use Rattle.schema.specs.Messages.{scope_profiles};
ghost use Rattle.prof_rec.specs.Views.{scope_profiles_view};

use crate::{Profile, Scope};
use pb_wire::{
    Blob, Field, List, NewIndexes, NoMemory, ReadFault, Rows, TextRef, Wire, add_message,
    message_len, messages_len, put_message, put_messages, put_text, take_message, take_text,
    text_len,
};
use std::alloc::Global;

/// The profiles of one scope.
#[derive(Debug, Drop)]
pub struct ScopeProfiles<'a> {
    pub scope: Scope<'a>,
    pub profiles: List<Profile<'a>>,
    /// The URL of the schema that the scope and its profiles follow.
    pub schema_url: TextRef<'a>,
}

impl<'a> Rows for ScopeProfiles<'a> {
    ghost shape = { scope_profiles };

    ghost view = { scope_profiles_view };

    ghost message = { tt };

    ghost lawful = { refl };

    fn rows_len<I: NewIndexes>(&self, indexes: &I) -> u64 {
        message_len(1, &self.scope, indexes)
            + messages_len(2, self.profiles.as_slice(), indexes)
            + text_len(3, &self.schema_url)
    }

    #[tactic(auto, using(pb_wire::proofs::Prefixes::growing))]
    fn put_rows<I: NewIndexes>(&self, indexes: &I, out: &mut Blob) -> Result<(), NoMemory> {
        put_message(out, 1, &self.scope, indexes)?;
        put_messages(out, 2, self.profiles.as_slice(), indexes)?;
        put_text(out, 3, &self.schema_url)?;
        Ok(())
    }
}

impl<'a> Wire<'a> for ScopeProfiles<'a> {
    fn none(alloc: Global) -> ScopeProfiles<'a> {
        ScopeProfiles {
            scope: Scope::none(alloc),
            profiles: List::begin(alloc),
            schema_url: TextRef::empty(),
        }
    }

    fn take(&mut self, alloc: Global, field: &Field<'a>) -> Result<(), ReadFault> {
        match field.number {
            1 => take_message(&mut self.scope, alloc, field),
            2 => add_message(&mut self.profiles, alloc, field),
            3 => take_text(&mut self.schema_url, field),
            _ => Ok(()),
        }
    }
}
