//! The Protocol Buffers wire format: fields, varints, texts and bytes, and the trait of messages.
#![tactic(auto)]

mod blob;
mod borrowed;
mod fault;
mod field;
mod index_rows;
mod indexes;
mod laws;
mod lengths;
mod list;
mod memory;
mod next;
mod number;
mod pieces;
mod put;
mod put_rows;
mod rows;
mod table_kind;
mod take;
mod text;
mod wire;

pub use blob::Blob;
pub use borrowed::{BytesRef, TextRef};
pub use fault::{ReadFault, Reason, WireFault};
pub use field::{Field, Payload};
pub use index_rows::{index_len, indexes_len, put_index, put_indexes};
pub use indexes::{AsTheyStand, NewIndexes};
pub use laws::reads_what_is_written;
pub use lengths::{
    bytes_len, bytes_list_len, fixed_len, fixed_list_len, long_len, message_len, messages_len,
    number_len, numbers_len, text_len, text_list_len,
};
pub use list::List;
pub use memory::NoMemory;
pub use next::next_field;
pub use number::Number;
pub use pieces::{Piece, Pieces};
pub use put::{put_field, put_head, put_varint, varint_len};
pub use put_rows::{
    put_bytes, put_bytes_list, put_fixed, put_fixed_list, put_message, put_messages, put_number,
    put_numbers, put_text, put_text_list,
};
pub use rows::Rows;
pub use table_kind::TableKind;
pub use take::{
    add_bytes, add_fixed, add_message, add_number, add_text, take_bytes, take_fixed, take_message,
    take_number, take_text, text_of,
};
pub use text::Text;
pub use wire::Wire;
