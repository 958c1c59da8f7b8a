//! How much there is in a message.
ghost use Rattle.std.specs.Prelude.{◌≡◌, ◌<◌, ◌^◌, length, sum_by};
ghost use Rattle.otlp_msg.specs.Counts.{scopes_count, resources_count, profiles_samples, scopes_samples, resources_samples};

use prof_rec::{Profile, ResourceProfiles, ScopeProfiles};

/// The number of profiles of some resources.
pub fn profiles_in_resources(records: &[ResourceProfiles<'_>]) -> u64
    requires { resources_count records.now < 2 ^ 62 }
    ensures { result ≡ resources_count records.now }
{
    let mut count = 0;
    for record in records {
        count += profiles_in_scopes(record.scope_profiles.as_slice());
    }
    count
}

// The number of profiles of some scopes.
fn profiles_in_scopes(scopes: &[ScopeProfiles<'_>]) -> u64
    requires { scopes_count scopes.now < 2 ^ 62 }
    ensures { result ≡ scopes_count scopes.now }
{
    let mut count = 0;
    for scope in scopes {
        count += scope.profiles.len() as u64;
    }
    count
}

/// The number of samples of some resources.
pub fn samples_in_resources(records: &[ResourceProfiles<'_>]) -> u64
    requires { resources_samples records.now < 2 ^ 62 }
    ensures { result ≡ resources_samples records.now }
{
    let mut count = 0;
    for record in records {
        count += samples_in_scopes(record.scope_profiles.as_slice());
    }
    count
}

// The number of samples of some scopes.
fn samples_in_scopes(scopes: &[ScopeProfiles<'_>]) -> u64
    requires { scopes_samples scopes.now < 2 ^ 62 }
    ensures { result ≡ scopes_samples scopes.now }
{
    let mut count = 0;
    for scope in scopes {
        count += samples_in_profiles(scope.profiles.as_slice());
    }
    count
}

// The number of samples of some profiles.
fn samples_in_profiles(profiles: &[Profile<'_>]) -> u64
    requires { profiles_samples profiles.now < 2 ^ 62 }
    ensures { result ≡ profiles_samples profiles.now }
{
    let mut count = 0;
    for profile in profiles {
        count += profile.samples.len() as u64;
    }
    count
}
