//! The places of profiles in messages.
ghost use Rattle.std.specs.Prelude.{◌≡◌, ◌+◌, ◌≤◌, ℕ, List, length, map, take, IfOk};
ghost use Rattle.schema.specs.Messages.{resource_profiles};
ghost use Rattle.schema.specs.Shape.{Value};
ghost use Rattle.prof_rec.specs.Views.{resource_profiles_view, scope_profiles_view};
ghost use Rattle.otlp_msg.specs.Checked.{value_of};
ghost use Rattle.otlp_msg.specs.Message.{profiles_in_scopes};
ghost use Rattle.draft_contents.specs.Singles.{IsPosition, flat_index};
ghost use Rattle.split_merge.specs.Places.{AreNumbersOf, IsPlace, IsPlaceOf, IsPositionOf, IsScopeOf, place_index, profiles_in_records, profiles_of_all};

use otlp_msg::{Checked, ProfilePos};
use pb_wire::NoMemory;
use prof_rec::{ResourceProfiles, ScopeProfiles};

/// The place of a profile in messages: the number of its message, counted from 0, and its position there.
#[derive(Clone, Copy)]
pub(crate) struct Place {
    pub(crate) message: usize,
    pub(crate) pos: ProfilePos,
}

/// The place of the first profile. It takes no memory.
///
/// # Errors
///
/// Out of memory, where a record's number has more than 32 bits; no message that was read has so many records.
pub(crate) fn first_place(messages: &[Checked<'_>]) -> Result<Option<Place>, NoMemory>
    ensures { IfOk result (IsPlaceOf (map value_of messages.now) 0) }
{
    first_from(messages, 0)
}

/// The place of the profile after the one at a place. It takes no memory.
///
/// # Errors
///
/// Out of memory, where a record's number has more than 32 bits, as in `first_place`.
pub(crate) fn next_place(messages: &[Checked<'_>], place: Place) -> Result<Option<Place>, NoMemory>
    requires { IsPlace (map value_of messages.now) place }
    ensures { IfOk result (IsPlaceOf (map value_of messages.now) (place_index (map value_of messages.now) place + 1)) }
{
    let message = place.message;
    let found = messages[message].message();
    let next = next_position(found.records.as_slice(), place.pos)?;
    match next {
        Some(pos) => Ok(Some(Place { message, pos })),
        None => first_from(messages, message + 1),
    }
}

// The place of the first profile of the messages from this number on.
fn first_from(messages: &[Checked<'_>], from: usize) -> Result<Option<Place>, NoMemory>
    requires { from ≤ length messages.now }
    ensures { IfOk result (IsPlaceOf (map value_of messages.now) (profiles_of_all (take from (map value_of messages.now)))) }
{
    for message in from..messages.len() {
        let found = messages[message].message();
        match first_position(found.records.as_slice(), 0) {
            Ok(first) => {
                if let Some(pos) = first {
                    return Ok(Some(Place { message, pos }));
                }
            }
            Err(stop) => return Err(stop),
        }
    }
    Ok(None)
}

// The position of the profile after the one at a position.
fn next_position(
    records: &[ResourceProfiles<'_>],
    pos: ProfilePos,
) -> Result<Option<ProfilePos>, NoMemory>
    requires { IsPosition (map resource_profiles_view records.now) pos }
    ensures { IfOk result (IsPositionOf (map resource_profiles_view records.now) (flat_index (map resource_profiles_view records.now) pos + 1)) }
{
    let resource = pos.resource as usize;
    let scope = pos.scope as usize;
    let profile = pos.profile as usize + 1;
    let record = &records[resource];
    let scopes = record.scope_profiles.as_slice();
    let group = &scopes[scope];
    if profile < group.profiles.len() {
        return position(resource, scope, profile);
    }
    match first_scope(scopes, scope + 1) {
        Some(next) => position(resource, next, 0),
        None => first_position(records, resource + 1),
    }
}

// The position of the first profile of the resource records from this number on.
fn first_position(
    records: &[ResourceProfiles<'_>],
    from: usize,
) -> Result<Option<ProfilePos>, NoMemory>
    requires { from ≤ length records.now }
    ensures { IfOk result (IsPositionOf (map resource_profiles_view records.now) (profiles_in_records (take from (map resource_profiles_view records.now)))) }
{
    for resource in from..records.len() {
        let record = &records[resource];
        if let Some(scope) = first_scope(record.scope_profiles.as_slice(), 0) {
            return position(resource, scope, 0);
        }
    }
    Ok(None)
}

// The first scope record from this number on that holds a profile.
fn first_scope(scopes: &[ScopeProfiles<'_>], from: usize) -> Option<usize>
    requires { from ≤ length scopes.now }
    ensures { IsScopeOf (map scope_profiles_view scopes.now) (profiles_in_scopes (take from (map scope_profiles_view scopes.now))) result }
{
    for scope in from..scopes.len() {
        let group = &scopes[scope];
        if !group.profiles.is_empty() {
            return Some(scope);
        }
    }
    None
}

// The position with these numbers.
fn position(resource: usize, scope: usize, profile: usize) -> Result<Option<ProfilePos>, NoMemory>
    ensures { (rs : List (Value resource_profiles)) → (n : ℕ) → AreNumbersOf rs n resource scope profile → IfOk result (IsPositionOf rs n) }
{
    let resource = number(resource)?;
    let scope = number(scope)?;
    let profile = number(profile)?;
    Ok(Some(ProfilePos {
        resource,
        scope,
        profile,
    }))
}

// A number in 32 bits. A message has at most 2^25 bytes, and so fewer records: it never fails.
fn number(n: usize) -> Result<u32, NoMemory>
    ensures { IfOk result (λ x. x ≡ n) }
{
    if n > u32::MAX as usize {
        return Err(NoMemory);
    }
    Ok(n as u32)
}
