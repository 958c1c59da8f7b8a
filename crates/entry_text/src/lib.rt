//! Entries of a message's tables as text: where the text of an index comes from, and what the text of an entry is.
#![tactic(auto)]

mod attributes;
mod columns;
mod dictionary_texts;
mod entries;
mod entry;
mod entry_texts;
mod held;
mod held_lengths;
mod measured;
mod stacks;

pub use attributes::{put_attributes, put_string};
pub use dictionary_texts::Direct;
pub use entry::Entry;
pub use entry_texts::{EntryText, EntryTexts, Meanings};
pub use held::{Held, HoldsTables};
pub use held_lengths::{HeldLengths, HoldsLengths};
pub use measured::Measured;
