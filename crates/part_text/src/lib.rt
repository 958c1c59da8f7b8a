//! The text of parts, written in place: the texts of the parts lie one after the other in one run of bytes, and the texts that
//! close records in a second one. Each text is moved up to its place, from the last to the first, and tags, lengths and closing
//! texts are put between them.
#![tactic(auto)]

mod backward;
mod ending;
mod extent;
mod open;
mod place;
mod whole;

pub use ending::Ending;
pub use extent::Extent;
pub use whole::into_whole_text;
