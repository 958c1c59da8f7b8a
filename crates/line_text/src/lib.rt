//! Words of lines, put into a text: where a text is put, and how numbers, texts, bytes and AnyValues are.
#![tactic(auto)]

mod decimal;
mod pen;
mod quoting;
mod text_length;
mod text_out;
mod values;
mod words;

pub use decimal::Decimal;
pub use pen::Pen;
pub use quoting::{put_bytes, put_text};
pub use text_length::TextLength;
pub use text_out::TextOut;
pub use values::put_value;
pub use words::{put_indent, put_number, put_numbers};
