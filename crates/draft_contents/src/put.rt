//! Records with new indexes, put after those of a draft. Each byte is written once.
ghost use Rattle.std.specs.Prelude.{◌≡◌, ◌++◌, ◌^◌, ◌∷◌, [], map, OnOk};
ghost use Rattle.schema.specs.Messages.{scope_profiles, resource_profiles};
ghost use Rattle.schema.specs.Moved.{moved};
ghost use Rattle.parts.specs.Values.{resource_value_parts, scope_value_parts};
ghost use Rattle.prof_rec.specs.Views.{profile_view, resource_profiles_view, scope_profiles_view};
ghost use Rattle.schema.specs.Prefix.{IsPrefix};
ghost use Rattle.draft_contents.specs.Adding.{AreShorter, added_moved, profiles_moved, resources_moved, scopes_moved};
ghost use Rattle.draft_contents.specs.Singles.{single_record, single_scope};

use crate::single::Single;
use crate::unrepeated::Added;
use draft_records::Records;
use pb_wire::{NewIndexes, NoMemory};
use prof_rec::{Profile, ResourceProfiles, ScopeProfiles};

/// Puts what is added at the end.
///
/// # Errors
///
/// Out of memory. What was there is still in front.
pub fn put_added<I: NewIndexes>(
    records: &mut Records,
    added: &Added<'_, '_>,
    indexes: &I,
) -> Result<(), NoMemory>
    requires { AreShorter (2 ^ 62) (added_moved (I.to indexes.now) added.now) }
    ensures ok { OnOk result (records.new ≡ records.old ++ added_moved (I.to indexes.now) added.now) }
    ensures front { IsPrefix records.old records.new }
{
    match *added {
        Added::Records(resources) => {
            put_resources(records, resources, indexes)?;
        }
        Added::Scopes(scopes, resources) => {
            put_scopes(records, scopes, indexes)?;
            put_resources(records, resources, indexes)?;
        }
        Added::Profiles(profiles, scopes, resources) => {
            put_profiles(records, profiles, indexes)?;
            put_scopes(records, scopes, indexes)?;
            put_resources(records, resources, indexes)?;
        }
        Added::RecordAlone(single) => put_record_alone(records, &single, indexes)?,
        Added::ScopeAlone(single) => put_scope_alone(records, &single, indexes)?,
        Added::ProfileAlone(profile) => records.add_profile(profile, indexes)?,
    }
    Ok(())
}

// Puts resource records at the end.
fn put_resources<I: NewIndexes>(
    records: &mut Records,
    added: &[ResourceProfiles<'_>],
    indexes: &I,
) -> Result<(), NoMemory>
    requires { AreShorter (2 ^ 62) (resources_moved (I.to indexes.now) (map resource_profiles_view added.now)) }
    ensures ok { OnOk result (records.new ≡ records.old ++ resources_moved (I.to indexes.now) (map resource_profiles_view added.now)) }
    ensures front { IsPrefix records.old records.new }
{
    for record in added {
        if let Err(stop) = put_resource(records, record, indexes) {
            return Err(stop);
        }
    }
    Ok(())
}

// Puts a resource record at the end.
fn put_resource<I: NewIndexes>(
    records: &mut Records,
    added: &ResourceProfiles<'_>,
    indexes: &I,
) -> Result<(), NoMemory>
    requires { AreShorter (2 ^ 62) (resource_value_parts (moved (I.to indexes.now) resource_profiles (resource_profiles_view added.now))) }
    ensures ok { OnOk result (records.new ≡ records.old ++ resource_value_parts (moved (I.to indexes.now) resource_profiles (resource_profiles_view added.now))) }
    ensures front { IsPrefix records.old records.new }
{
    records.begin_resource(&added.resource, &added.schema_url, indexes)?;
    put_scopes(records, added.scope_profiles.as_slice(), indexes)?;
    Ok(())
}

// Puts scope records at the end.
fn put_scopes<I: NewIndexes>(
    records: &mut Records,
    added: &[ScopeProfiles<'_>],
    indexes: &I,
) -> Result<(), NoMemory>
    requires { AreShorter (2 ^ 62) (scopes_moved (I.to indexes.now) (map scope_profiles_view added.now)) }
    ensures ok { OnOk result (records.new ≡ records.old ++ scopes_moved (I.to indexes.now) (map scope_profiles_view added.now)) }
    ensures front { IsPrefix records.old records.new }
{
    for record in added {
        if let Err(stop) = put_scope(records, record, indexes) {
            return Err(stop);
        }
    }
    Ok(())
}

// Puts a scope record at the end.
fn put_scope<I: NewIndexes>(
    records: &mut Records,
    added: &ScopeProfiles<'_>,
    indexes: &I,
) -> Result<(), NoMemory>
    requires { AreShorter (2 ^ 62) (scope_value_parts (moved (I.to indexes.now) scope_profiles (scope_profiles_view added.now))) }
    ensures ok { OnOk result (records.new ≡ records.old ++ scope_value_parts (moved (I.to indexes.now) scope_profiles (scope_profiles_view added.now))) }
    ensures front { IsPrefix records.old records.new }
{
    records.begin_scope(&added.scope, &added.schema_url, indexes)?;
    put_profiles(records, added.profiles.as_slice(), indexes)?;
    Ok(())
}

// Puts profiles at the end.
fn put_profiles<I: NewIndexes>(
    records: &mut Records,
    added: &[Profile<'_>],
    indexes: &I,
) -> Result<(), NoMemory>
    requires { AreShorter (2 ^ 62) (profiles_moved (I.to indexes.now) (map profile_view added.now)) }
    ensures ok { OnOk result (records.new ≡ records.old ++ profiles_moved (I.to indexes.now) (map profile_view added.now)) }
    ensures front { IsPrefix records.old records.new }
{
    for profile in added {
        if let Err(stop) = records.add_profile(profile, indexes) {
            return Err(stop);
        }
    }
    Ok(())
}

// Puts a resource record that holds one profile at the end.
fn put_record_alone<I: NewIndexes>(
    records: &mut Records,
    single: &Single<'_, '_>,
    indexes: &I,
) -> Result<(), NoMemory>
    requires { AreShorter (2 ^ 62) (resources_moved (I.to indexes.now) (single_record single.now ∷ [])) }
    ensures ok { OnOk result (records.new ≡ records.old ++ resources_moved (I.to indexes.now) (single_record single.now ∷ [])) }
    ensures front { IsPrefix records.old records.new }
{
    let found = single.resource;
    records.begin_resource(&found.resource, &found.schema_url, indexes)?;
    put_scope_alone(records, single, indexes)?;
    Ok(())
}

// Puts a scope record that holds one profile at the end.
fn put_scope_alone<I: NewIndexes>(
    records: &mut Records,
    single: &Single<'_, '_>,
    indexes: &I,
) -> Result<(), NoMemory>
    requires { AreShorter (2 ^ 62) (scopes_moved (I.to indexes.now) (single_scope single.now ∷ [])) }
    ensures ok { OnOk result (records.new ≡ records.old ++ scopes_moved (I.to indexes.now) (single_scope single.now ∷ [])) }
    ensures front { IsPrefix records.old records.new }
{
    let found = single.scope;
    records.begin_scope(&found.scope, &found.schema_url, indexes)?;
    records.add_profile(single.profile, indexes)?;
    Ok(())
}
