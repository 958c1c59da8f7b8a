//! Extents of a message's records: how the runs of their texts are cut.

/// What begins a record, or a profile: the lengths of its texts in the two runs of bytes, that of the texts in front and that of
/// the texts that close records.
#[derive(Clone, Copy, Debug)]
pub enum Extent {
    /// A resource record begins, with so many bytes in front of its scope records and after them.
    Resource { front: u32, back: u32 },
    /// A scope record begins, with so many bytes in front of its profiles and after them.
    Scope { front: u32, back: u32 },
    /// A profile of so many bytes.
    Profile { len: u32 },
}
