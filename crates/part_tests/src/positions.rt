//! Positions of profiles in messages.
ghost use Rattle.std.specs.Prelude.{map, IfSome};
ghost use Rattle.prof_rec.specs.Views.{resource_profiles_view};
ghost use Rattle.otlp_msg.specs.Checked.{value_of};
ghost use Rattle.otlp_msg.specs.Message.{records_of};
ghost use Rattle.draft_contents.specs.Singles.{IsPosition};

use otlp_msg::{Checked, ProfilePos};
use prof_rec::ResourceProfiles;

/// The position with these numbers: of the resource record, of the scope record in it, and of the profile in that.
pub fn position(resource: u32, scope: u32, profile: u32) -> ProfilePos {
    ProfilePos {
        resource,
        scope,
        profile,
    }
}

/// A position, if there is a profile at it.
pub fn position_in(message: &Checked<'_>, pos: ProfilePos) -> Option<ProfilePos>
    ensures { IfSome result (IsPosition (records_of (value_of message.now))) }
{
    let found = message.message();
    position_among(found.records.as_slice(), pos)
}

// The same, of the records of a message.
fn position_among(records: &[ResourceProfiles<'_>], pos: ProfilePos) -> Option<ProfilePos>
    ensures { IfSome result (IsPosition (map resource_profiles_view records.now)) }
{
    let resource = pos.resource as usize;
    if resource >= records.len() {
        return None;
    }
    let record = &records[resource];
    let scopes = record.scope_profiles.as_slice();
    let scope = pos.scope as usize;
    if scope >= scopes.len() {
        return None;
    }
    let group = &scopes[scope];
    if pos.profile as usize >= group.profiles.len() {
        return None;
    }
    Some(pos)
}
