//! What becomes of indexes when a record is written.
ghost use Rattle.std.specs.Prelude.{◌≡◌, ℤ};
ghost use Rattle.schema.specs.Shape.{Table};
ghost use Rattle.pb_wire.specs.TableKinds.{table_of};

use crate::TableKind;

/// What becomes of the indexes of a record when it is written. Indexes are handed over by reference.
pub trait NewIndexes {
    ghost to: { Self → Table → ℤ → ℤ };

    /// The index that is written for an index into a table. It takes no memory.
    fn new(&self, table: TableKind, index: &i32) -> i32
        ensures { result ≡ to self.now (table_of table) index.now };
}

/// Each index is written as it is.
#[derive(Clone, Copy, Debug)]
pub struct AsTheyStand;

impl NewIndexes for AsTheyStand {
    ghost to = { λ _ T i. i };

    #[inline(always)]
    fn new(&self, _table: TableKind, index: &i32) -> i32 {
        *index
    }
}
