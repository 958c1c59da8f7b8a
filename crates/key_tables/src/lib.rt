//! One thing for each table of a dictionary, and the tables of a new dictionary's keys.
#![tactic(auto)]

mod by_table;
mod filling;
mod key_tables;
pub mod laws;
mod mark;
mod zero_tables;

pub use by_table::ByTable;
pub use key_tables::KeyTables;
pub use mark::KeyTablesMark;
pub use zero_tables::begin_tables;
