//! The command line, and what it asks for.
#![tactic(auto)]

mod limits;
mod words;

pub use limits::PartLimit;
pub use words::{Texts, ToolPlan, WordReason, WordRefusal, plan};
