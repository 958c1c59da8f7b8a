//! The draft of a message, to which messages and single profiles are added.
#![tactic(auto)]

mod adder;
mod draft;
mod state;

pub use adder::ProfileAdder;
pub use draft::Draft;
pub use draft_contents::{BuildFault, DraftMark, Joining};
