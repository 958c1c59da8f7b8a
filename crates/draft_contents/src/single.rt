//! One profile of a message, with its heads.
ghost use Rattle.std.specs.Prelude.{◌≡◌, map};
ghost use Rattle.prof_rec.specs.Views.{resource_profiles_view};
ghost use Rattle.draft_contents.specs.Singles.{IsPosition, record_alone, single_record};

use otlp_msg::ProfilePos;
use prof_rec::{Profile, ResourceProfiles, ScopeProfiles};

/// A profile, its scope record, and the resource record of that.
#[derive(Clone, Copy)]
pub struct Single<'s, 'a> {
    pub resource: &'s ResourceProfiles<'a>,
    pub scope: &'s ScopeProfiles<'a>,
    pub profile: &'s Profile<'a>,
}

/// The profile at a position. It takes no memory.
pub fn single_at<'s, 'a>(records: &'s [ResourceProfiles<'a>], pos: ProfilePos) -> Single<'s, 'a>
    requires { IsPosition (map resource_profiles_view records.now) pos }
    ensures { single_record result ≡ record_alone (map resource_profiles_view records.now) pos }
{
    let resource = &records[pos.resource as usize];
    let scope = &resource.scope_profiles.as_slice()[pos.scope as usize];
    let profile = &scope.profiles.as_slice()[pos.profile as usize];
    Single {
        resource,
        scope,
        profile,
    }
}
