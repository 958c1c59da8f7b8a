//! The messages of the OpenTelemetry Profiles signal: what a file says, or why it is refused.
#![tactic(auto)]

mod checked;
mod counts;
mod indexed;
mod indexed_entries;
mod indexed_records;
pub mod laws;
mod message;
mod path;
mod reading;
mod refusal;
mod sample_indexes;
mod table_lengths;
mod zero_entries;

pub use checked::{Checked, Messages};
pub use message::Message;
pub use path::{Holder, Path, ProfilePos};
pub use reading::{MESSAGE_LIMIT, read_message};
pub use refusal::Refusal;
