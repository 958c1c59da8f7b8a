//! What a command writes.
use pb_wire::{Blob, List, Text};

/// Files to write, in order, each a name and its bytes.
pub type Writes = List<(Text, Blob)>;

/// The files, and the lines on the standard output.
#[derive(Drop)]
pub struct Output {
    pub files: Writes,
    pub lines: Text,
}
