//! Records with new indexes, measured before a byte of them is written. It takes no memory.
ghost use Rattle.std.specs.Prelude.{◌≡◌, ◌^◌, ◌∷◌, [], map, IfOk};
ghost use Rattle.schema.specs.Messages.{profile, scope_profiles, resource_profiles};
ghost use Rattle.schema.specs.Moved.{moved};
ghost use Rattle.parts.specs.Sums.{sums_from};
ghost use Rattle.parts.specs.Values.{profile_value_part, resource_value_parts, scope_value_parts};
ghost use Rattle.prof_rec.specs.Views.{profile_view, resource_profiles_view, scope_profiles_view};
ghost use Rattle.draft_contents.specs.Adding.{AreShorter, added_moved, profiles_moved, resources_moved, scopes_moved};
ghost use Rattle.draft_contents.specs.Singles.{single_record, single_scope};

use crate::single::Single;
use crate::unrepeated::Added;
use draft_records::Totals;
use pb_wire::{NewIndexes, NoMemory, Rows, message_len, text_len};
use prof_rec::{Profile, ResourceProfiles, ScopeProfiles};

// The numbers of a record's fields.
const HEAD: u32 = 1;

const SCHEMA_URL: u32 = 3;

/// The sums with what is added.
///
/// # Errors
///
/// Out of memory, where a text has more than 2^58 bytes or the records would come to more than 2^59.
pub fn with_added<I: NewIndexes>(
    totals: Totals,
    added: &Added<'_, '_>,
    indexes: &I,
) -> Result<Totals, NoMemory>
    requires { AreShorter (2 ^ 63) (added_moved (I.to indexes.now) added.now) }
    ensures { IfOk result (λ sums. sums ≡ sums_from totals (added_moved (I.to indexes.now) added.now)) }
{
    match *added {
        Added::Records(resources) => with_resources(totals, resources, indexes),
        Added::Scopes(scopes, resources) => {
            let sums = with_scopes(totals, scopes, indexes)?;
            with_resources(sums, resources, indexes)
        }
        Added::Profiles(profiles, scopes, resources) => {
            let sums = with_profiles(totals, profiles, indexes)?;
            let more = with_scopes(sums, scopes, indexes)?;
            with_resources(more, resources, indexes)
        }
        Added::RecordAlone(single) => with_record_alone(totals, &single, indexes),
        Added::ScopeAlone(single) => with_scope_alone(totals, &single, indexes),
        Added::ProfileAlone(profile) => with_profile(totals, profile, indexes),
    }
}

// The sums with resource records more.
fn with_resources<I: NewIndexes>(
    totals: Totals,
    records: &[ResourceProfiles<'_>],
    indexes: &I,
) -> Result<Totals, NoMemory>
    requires { AreShorter (2 ^ 63) (resources_moved (I.to indexes.now) (map resource_profiles_view records.now)) }
    ensures { IfOk result (λ sums. sums ≡ sums_from totals (resources_moved (I.to indexes.now) (map resource_profiles_view records.now))) }
{
    let mut sums = totals;
    for record in records {
        match with_resource(sums, record, indexes) {
            Ok(more) => sums = more,
            Err(stop) => return Err(stop),
        }
    }
    Ok(sums)
}

// The sums with one resource record more.
fn with_resource<I: NewIndexes>(
    totals: Totals,
    found: &ResourceProfiles<'_>,
    indexes: &I,
) -> Result<Totals, NoMemory>
    requires { AreShorter (2 ^ 63) (resource_value_parts (moved (I.to indexes.now) resource_profiles (resource_profiles_view found.now))) }
    ensures { IfOk result (λ sums. sums ≡ sums_from totals (resource_value_parts (moved (I.to indexes.now) resource_profiles (resource_profiles_view found.now)))) }
{
    let front = message_len(HEAD, &found.resource, indexes);
    let back = text_len(SCHEMA_URL, &found.schema_url);
    let sums = totals.with_resource(front, back)?;
    let all = with_scopes(sums, found.scope_profiles.as_slice(), indexes)?;
    Ok(all)
}

// The sums with scope records more.
fn with_scopes<I: NewIndexes>(
    totals: Totals,
    records: &[ScopeProfiles<'_>],
    indexes: &I,
) -> Result<Totals, NoMemory>
    requires { AreShorter (2 ^ 63) (scopes_moved (I.to indexes.now) (map scope_profiles_view records.now)) }
    ensures { IfOk result (λ sums. sums ≡ sums_from totals (scopes_moved (I.to indexes.now) (map scope_profiles_view records.now))) }
{
    let mut sums = totals;
    for record in records {
        match with_scope(sums, record, indexes) {
            Ok(more) => sums = more,
            Err(stop) => return Err(stop),
        }
    }
    Ok(sums)
}

// The sums with one scope record more.
fn with_scope<I: NewIndexes>(
    totals: Totals,
    found: &ScopeProfiles<'_>,
    indexes: &I,
) -> Result<Totals, NoMemory>
    requires { AreShorter (2 ^ 63) (scope_value_parts (moved (I.to indexes.now) scope_profiles (scope_profiles_view found.now))) }
    ensures { IfOk result (λ sums. sums ≡ sums_from totals (scope_value_parts (moved (I.to indexes.now) scope_profiles (scope_profiles_view found.now)))) }
{
    let front = message_len(HEAD, &found.scope, indexes);
    let back = text_len(SCHEMA_URL, &found.schema_url);
    let sums = totals.with_scope(front, back)?;
    let all = with_profiles(sums, found.profiles.as_slice(), indexes)?;
    Ok(all)
}

// The sums with profiles more.
fn with_profiles<I: NewIndexes>(
    totals: Totals,
    profiles: &[Profile<'_>],
    indexes: &I,
) -> Result<Totals, NoMemory>
    requires { AreShorter (2 ^ 63) (profiles_moved (I.to indexes.now) (map profile_view profiles.now)) }
    ensures { IfOk result (λ sums. sums ≡ sums_from totals (profiles_moved (I.to indexes.now) (map profile_view profiles.now))) }
{
    let mut sums = totals;
    for profile in profiles {
        match with_profile(sums, profile, indexes) {
            Ok(more) => sums = more,
            Err(stop) => return Err(stop),
        }
    }
    Ok(sums)
}

// The sums with one profile more.
fn with_profile<I: NewIndexes>(
    totals: Totals,
    found: &Profile<'_>,
    indexes: &I,
) -> Result<Totals, NoMemory>
    requires { AreShorter (2 ^ 63) (profile_value_part (moved (I.to indexes.now) profile (profile_view found.now)) ∷ []) }
    ensures { IfOk result (λ sums. sums ≡ sums_from totals (profile_value_part (moved (I.to indexes.now) profile (profile_view found.now)) ∷ [])) }
{
    let sums = totals.with_profile(found.rows_len(indexes))?;
    Ok(sums)
}

// The sums with a resource record more that holds one profile.
fn with_record_alone<I: NewIndexes>(
    totals: Totals,
    single: &Single<'_, '_>,
    indexes: &I,
) -> Result<Totals, NoMemory>
    requires { AreShorter (2 ^ 63) (resources_moved (I.to indexes.now) (single_record single.now ∷ [])) }
    ensures { IfOk result (λ sums. sums ≡ sums_from totals (resources_moved (I.to indexes.now) (single_record single.now ∷ []))) }
{
    let found = single.resource;
    let front = message_len(HEAD, &found.resource, indexes);
    let back = text_len(SCHEMA_URL, &found.schema_url);
    let sums = totals.with_resource(front, back)?;
    with_scope_alone(sums, single, indexes)
}

// The sums with a scope record more that holds one profile.
fn with_scope_alone<I: NewIndexes>(
    totals: Totals,
    single: &Single<'_, '_>,
    indexes: &I,
) -> Result<Totals, NoMemory>
    requires { AreShorter (2 ^ 63) (scopes_moved (I.to indexes.now) (single_scope single.now ∷ [])) }
    ensures { IfOk result (λ sums. sums ≡ sums_from totals (scopes_moved (I.to indexes.now) (single_scope single.now ∷ []))) }
{
    let found = single.scope;
    let front = message_len(HEAD, &found.scope, indexes);
    let back = text_len(SCHEMA_URL, &found.schema_url);
    let sums = totals.with_scope(front, back)?;
    with_profile(sums, single.profile, indexes)
}
