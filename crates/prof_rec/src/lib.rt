//! The records of a message: resources, scopes and profiles. Each record has a public field for each row of the schema, under
//! the row's name.
#![tactic(auto)]

mod columns;
mod head;
mod profile;
mod resource;
mod resource_profiles;
mod sample;
mod sample_columns;
mod sample_ref;
mod sample_rows;
mod samples;
mod scope;
mod scope_profiles;
mod value_type;

pub use profile::Profile;
pub use resource::Resource;
pub use resource_profiles::{ResourceList, ResourceProfiles};
pub use sample::Sample;
pub use sample_ref::SampleRef;
pub use sample_rows::{put_samples, samples_len};
pub use samples::Samples;
pub use scope::Scope;
pub use scope_profiles::ScopeProfiles;
pub use value_type::ValueType;
