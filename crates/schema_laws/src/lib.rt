//! Laws of the schema's definitions: what a byte list spells is read, what is spelled is read back, and faults are found.
//! Each is the contract of a public function with no body; the lemmas are in `proofs/`.
#![tactic(auto)]

/// Laws of the canonical spelling.
pub mod spelling;

/// Laws of fields: what is spelled and what is bad.
pub mod fields;

/// Laws of values and faults: what is read of a message.
pub mod reading;

/// Laws of AnyValue, the value that holds values of its own kind.
pub mod any;

/// Laws of values with other indexes.
pub mod moving;
