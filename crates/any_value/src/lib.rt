//! The value that holds values of its own kind: its types, and reading and writing it.
#![tactic(auto)]

mod attribute;
mod comparing;
mod copying;
mod feeding;
mod laws;
mod lengths;
mod lists;
mod member;
mod reading;
mod value;
mod writing;

pub use laws::is_same_value;
pub use lengths::{value_len, value_row_len};
pub use reading::{decode_value, take_value};
pub use value::{KeyValue, KeyValues, Value, Values};
pub use writing::{encode_value, put_value};
