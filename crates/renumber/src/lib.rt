//! Renumbering: the indexes of a message are met, then its records are measured and written with the new ones.
#![tactic(auto)]

mod entries;
pub mod laws;
mod mark;
mod meets;
mod memo;
mod records;
mod rows;
mod spot;
mod walk;
mod walk_mark;

pub use mark::MemoMark;
pub use meets::{Entry, Meets};
pub use memo::Memo;
pub use walk::Walk;
pub use walk_mark::WalkMark;
