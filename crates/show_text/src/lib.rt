//! What a message means, written as text for a reader.
#![tactic(auto)]

mod fault;
mod profiles;
mod records;
mod samples;
mod showing;
mod values;

pub use fault::ShowFault;
pub use records::put_records;
pub use showing::{SHOW_LIMIT, show, show_len};
