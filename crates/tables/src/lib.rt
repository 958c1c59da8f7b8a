//! Tables of distinct keys in the order in which they were first met, one searched and one hashed, and the counter of
//! their steps.
#![tactic(auto)]

mod bytes_table;
mod entry_key;
mod interner;
mod key;
mod key_row;
mod key_run;
mod linking;
mod mark;
mod searched_table;
mod steps;
mod table;

pub use bytes_table::BytesTable;
pub use entry_key::EntryKey;
pub use interner::Interner;
pub use key::Key;
pub use mark::Mark;
pub use searched_table::SearchedTable;
pub use steps::Steps;
pub use table::Table;
