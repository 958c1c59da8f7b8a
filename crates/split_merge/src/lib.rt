//! The canonical bytes of messages: of one, of several as one, and of the parts that several are cut into.
#![tactic(auto)]

mod canonical;
mod cutting;
pub mod laws;
mod merging;
mod messages;
mod places;
mod splitter;

pub use canonical::canon;
pub use merging::Merging;
pub use messages::merge;
pub use splitter::Splitter;
