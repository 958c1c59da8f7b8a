//! The tool: what each command does, the answer to the command line, and the top call `run_tool`.
//!
//! docs/CONTRIBUTING.md says what a new command adds; no clause of another command changes.
#![tactic(auto)]

mod building;
mod canon_command;
mod check_command;
mod deliver;
mod kept;
mod lines;
mod merge_command;
mod output;
mod reading;
mod report;
mod run;
mod show_command;
mod split_command;
mod stop;
mod work;

pub use deliver::write_output;
pub use output::{Output, Writes};
pub use report::tell;
pub use run::run_tool;
pub use stop::{Stop, ToolRefusal};
pub use work::carry;
