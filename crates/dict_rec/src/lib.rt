//! The dictionary of a message, and the entries of its tables. Each record has a public field for each row of the schema,
//! under the row's name.
#![tactic(auto)]

mod attribute;
mod dictionary;
mod function;
mod line;
mod link;
mod location;
mod mapping;
mod stack;

pub use attribute::Attr;
pub use dictionary::{Dictionary, decode_dictionary, dictionary_len, encode_dictionary};
pub use function::Function;
pub use line::Line;
pub use link::Link;
pub use location::Location;
pub use mapping::Mapping;
pub use pb_wire::TableKind;
pub use stack::Stack;
