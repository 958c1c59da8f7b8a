//! Spots of old entries.
use pb_wire::TableKind;

/// An entry of an old dictionary: the kind of its table, and its place there.
#[derive(Clone, Copy, Debug)]
pub(crate) struct Spot {
    pub kind: TableKind,
    pub place: u32,
}
