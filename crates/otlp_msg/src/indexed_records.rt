//! The indexes of profiles, and of whole messages.
ghost use Rattle.std.specs.Prelude.{◌≡◌};
ghost use Rattle.schema.specs.Messages.{dictionary, scope_profiles, resource_profiles, envelope};
ghost use Rattle.dict_rec.specs.Views.{dictionary_view};
ghost use Rattle.prof_rec.specs.Views.{scope_profiles_view, resource_profiles_view};
ghost use Rattle.otlp_msg.specs.Lengths.{lengths_view};
ghost use Rattle.otlp_msg.specs.Views.{message_view};
ghost use Rattle.otlp_msg.specs.Walk.{dictionary_spots, lengths_in, message_spots, resource_spots, scope_spots, within};
ghost use Rattle.otlp_msg.specs.Within.{HasPlaces};

use crate::indexed::Indexed;
use crate::table_lengths::TableLengths;
use crate::{Holder, Message, ProfilePos, Refusal};
use dict_rec::{Dictionary, TableKind};
use prof_rec::{Profile, ResourceProfiles, ScopeProfiles, ValueType};

impl Indexed for ValueType {
    fn indexes_within(&self, lengths: &TableLengths, holder: Holder) -> Result<(), Refusal> {
        lengths.test(TableKind::String, self.type_strindex, holder, 1, 0)?;
        lengths.test(TableKind::String, self.unit_strindex, holder, 2, 0)?;
        Ok(())
    }
}

impl<'a> Indexed for Profile<'a> {
    fn indexes_within(&self, lengths: &TableLengths, holder: Holder) -> Result<(), Refusal> {
        self.sample_type
            .indexes_within(lengths, holder.entered(1, 0))?;
        lengths.test_samples(&self.samples, holder, 2)?;
        self.period_type
            .indexes_within(lengths, holder.entered(5, 0))?;
        lengths.test_list(TableKind::Attribute, &self.attribute_indices, holder, 11)?;
        Ok(())
    }
}

impl TableLengths {
    /// Tests the indexes of the tables, in the order of the dictionary's fields. Links and strings have none.
    fn test_tables(&self, tables: &Dictionary<'_>) -> Result<(), Refusal>
        requires { HasPlaces dictionary (dictionary_view tables.now) }
        ensures { result ≡ within (lengths_view self.now) (dictionary_spots (dictionary_view tables.now)) }
    {
        self.test_entries(TableKind::Mapping, &tables.mapping_table)?;
        self.test_entries(TableKind::Location, &tables.location_table)?;
        self.test_entries(TableKind::Function, &tables.function_table)?;
        self.test_entries(TableKind::Attribute, &tables.attribute_table)?;
        self.test_entries(TableKind::Stack, &tables.stack_table)?;
        Ok(())
    }

    // The indexes of the profiles of one scope record.
    fn test_scope(
        &self,
        group: &ScopeProfiles<'_>,
        resource: u32,
        scope: u32,
    ) -> Result<(), Refusal>
        requires { HasPlaces scope_profiles (scope_profiles_view group.now) }
        ensures { result ≡ within (lengths_view self.now) (scope_spots resource scope (scope_profiles_view group.now)) }
    {
        for (profile, element) in group.profiles.as_slice().iter().enumerate() {
            let pos = ProfilePos {
                resource,
                scope,
                profile: profile as u32,
            };
            if let Err(refusal) = element.indexes_within(self, Holder::Profile { pos }) {
                return Err(refusal);
            }
        }
        Ok(())
    }

    // The indexes of the profiles of one resource record.
    fn test_resource(&self, group: &ResourceProfiles<'_>, resource: u32) -> Result<(), Refusal>
        requires { HasPlaces resource_profiles (resource_profiles_view group.now) }
        ensures { result ≡ within (lengths_view self.now) (resource_spots resource (resource_profiles_view group.now)) }
    {
        for (scope, element) in group.scope_profiles.as_slice().iter().enumerate() {
            if let Err(refusal) = self.test_scope(element, resource, scope as u32) {
                return Err(refusal);
            }
        }
        Ok(())
    }
}

/// Tests each index of a message, and answers the refusal of the walk's first that is in no table. It takes no memory.
pub(crate) fn indexes_within(message: &Message<'_>) -> Result<(), Refusal>
    requires { HasPlaces envelope (message_view message.now) }
    ensures { result ≡ within (lengths_in (dictionary_view message.now.dictionary)) (message_spots (message_view message.now)) }
{
    let lengths = TableLengths::of_dictionary(&message.dictionary);
    if let Err(refusal) = lengths.test_tables(&message.dictionary) {
        return Err(refusal);
    }
    for (resource, element) in message.records.as_slice().iter().enumerate() {
        if let Err(refusal) = lengths.test_resource(element, resource as u32) {
            return Err(refusal);
        }
    }
    Ok(())
}
