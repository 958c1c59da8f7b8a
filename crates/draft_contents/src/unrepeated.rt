//! The records of a message, without the heads that repeat the last ones of a draft.
ghost use Rattle.std.specs.Prelude.{◌≡◌, ◌++◌, ◌^◌, map, IfOk};
ghost use Rattle.parts.specs.LastHeads.{last_heads};
ghost use Rattle.prof_rec.specs.Views.{resource_profiles_view, scope_profiles_view};
ghost use Rattle.draft_contents.specs.Adding.{AreShorter, added_moved, resources_moved, scopes_moved, unrepeated_parts, unrepeated_scopes};

use crate::single::Single;
use draft_records::Records;
use pb_wire::{NewIndexes, NoMemory};
use prof_rec::{Profile, ResourceProfiles, ScopeProfiles};

/// What is added to the records of a draft.
#[derive(Clone, Copy)]
pub enum Added<'s, 'a> {
    /// Resource records.
    Records(&'s [ResourceProfiles<'a>]),
    /// Scope records under the last resource record, and resource records.
    Scopes(&'s [ScopeProfiles<'a>], &'s [ResourceProfiles<'a>]),
    /// Profiles under the last scope record, scope records under the last resource record, and resource records.
    Profiles(&'s [Profile<'a>], &'s [ScopeProfiles<'a>], &'s [ResourceProfiles<'a>]),
    /// A resource record that holds one profile.
    RecordAlone(Single<'s, 'a>),
    /// A scope record that holds one profile, under the last resource record.
    ScopeAlone(Single<'s, 'a>),
    /// One profile under the last scope record.
    ProfileAlone(&'s Profile<'a>),
}

/// What the records of a message add: all but the heads that repeat the last ones. The draft's records stay as they are.
///
/// # Errors
///
/// Out of memory.
pub fn unrepeated<'s, 'a, I: NewIndexes>(
    records: &mut Records,
    found: &'s [ResourceProfiles<'a>],
    indexes: &I,
) -> Result<Added<'s, 'a>, NoMemory>
    requires { AreShorter (2 ^ 63) (resources_moved (I.to indexes.now) (map resource_profiles_view found.now)) }
    ensures is { IfOk result (λ a. added_moved (I.to indexes.now) a ≡ unrepeated_parts records.old (resources_moved (I.to indexes.now) (map resource_profiles_view found.now))) }
    ensures same { records.new ≡ records.old }
{
    let [first, rest @ ..] = found else {
        return Ok(Added::Records(found));
    };
    if records.is_last_resource(&first.resource, &first.schema_url, indexes)? {
        unrepeated_in(records, first.scope_profiles.as_slice(), rest, indexes)
    } else {
        Ok(Added::Records(found))
    }
}

// The same of scope records that come under the last resource record, and of the resource records after them.
fn unrepeated_in<'s, 'a, I: NewIndexes>(
    records: &mut Records,
    found: &'s [ScopeProfiles<'a>],
    resources: &'s [ResourceProfiles<'a>],
    indexes: &I,
) -> Result<Added<'s, 'a>, NoMemory>
    requires { AreShorter (2 ^ 63) (scopes_moved (I.to indexes.now) (map scope_profiles_view found.now)) }
    ensures is { IfOk result (λ a. added_moved (I.to indexes.now) a ≡ unrepeated_scopes (last_heads records.old).scope (scopes_moved (I.to indexes.now) (map scope_profiles_view found.now) ++ resources_moved (I.to indexes.now) (map resource_profiles_view resources.now))) }
    ensures same { records.new ≡ records.old }
{
    let [first, scopes @ ..] = found else {
        return Ok(Added::Scopes(found, resources));
    };
    if records.is_last_scope(&first.scope, &first.schema_url, indexes)? {
        Ok(Added::Profiles(first.profiles.as_slice(), scopes, resources))
    } else {
        Ok(Added::Scopes(found, resources))
    }
}
