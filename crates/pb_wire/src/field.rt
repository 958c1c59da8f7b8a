//! One field on the wire.

/// What a field carries, by its wire type.
#[derive(Clone, Copy, Debug, PartialEq, Eq)]
pub enum Payload<'a> {
    /// Wire type 0.
    Varint(u64),
    /// Wire type 1, in stored order.
    Fixed64([u8; 8]),
    /// Wire type 2, without its length.
    Bytes(&'a [u8]),
    /// Wire type 5, in stored order.
    Fixed32([u8; 4]),
}

/// A field: its number, where its tag begins and where its payload ends, in bytes from the beginning of the file.
#[derive(Clone, Copy, Debug, PartialEq, Eq)]
pub struct Field<'a> {
    pub number: u32,
    pub at: u64,
    pub end: u64,
    pub payload: Payload<'a>,
}
