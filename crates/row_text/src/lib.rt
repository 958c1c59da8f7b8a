//! The notation of bytes in rows: groups of hexadecimal digits with a `,` between them, where `COUNT*DIGITS` stands for the
//! bytes of `DIGITS` so many times. So `0a,3*00` is `0a000000`, and the empty text is no bytes.
#![tactic(auto)]

mod fault;
mod reading;
mod writing;

pub use fault::RowFault;
pub use reading::bytes_of;
pub use writing::text_of;
