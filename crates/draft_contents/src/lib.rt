//! What a draft of a message holds: the parts of messages' records with their new indexes, and the tables that these point into.
//! Here they are measured, added, cut back and written; `dict_build` makes drafts of them.
#![tactic(auto)]

mod adding;
mod contents;
mod dictionary;
mod fault;
mod heads;
mod incoming;
mod known;
pub mod laws;
mod mark;
mod measure;
mod profiles;
mod put;
mod single;
mod unrepeated;

pub use adding::{add_within_limit, put_incoming};
pub use contents::{copied_bytes, whole_bytes, whole_len};
pub use fault::BuildFault;
pub use incoming::{Incoming, Joining, joining_if};
pub use known::{KnownHeads, known_heads};
pub use mark::{DraftMark, cut_back, mark_of};
pub use profiles::add_profile_at;
pub use single::{Single, single_at};
