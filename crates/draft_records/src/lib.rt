//! The append-only records of a message under construction: a list of parts, whose texts lie one after the other in two runs of
//! bytes, and running sums that tell the length of their text.
#![tactic(auto)]

mod kept;
mod laws;
mod mark;
mod places;
mod put;
mod records;
mod running;
mod totals;

pub use laws::marks_lead_back;
pub use mark::RecordsMark;
pub use records::Records;
pub use totals::Totals;
