//! One thing for each table of a dictionary.
ghost use Rattle.std.specs.Prelude.{◌≡◌, ◌<◌, Some, length, slice_get, slice_set};
ghost use Rattle.pb_wire.specs.TableKinds.{place_of, table_of};

use pb_wire::TableKind;
use std::marker::Model;

/// One thing for each table of a dictionary, seen as their list in the order of the tables' fields. Calls by kind ask that it has
/// one for each of the seven kinds.
#[derive(Debug, Drop)]
pub struct ByTable<T> {
    items: Vec<T>,
}

impl<T> Model for ByTable<T> {
    ghost use Rattle.std.specs.Prelude.{List};

    ghost Value = { List T };

    ghost view = { λ b. b.items.items };
}

impl<T> ByTable<T> {
    ghost use Rattle.std.specs.Borrow.{sem, Lends};
    ghost use Rattle.key_tables.specs.contracts.by_table.ByTable.{the_row};

    /// The things of a vector, which is moved, in the order of the tables' fields.
    pub fn from_vec(items: Vec<T>) -> ByTable<T>
        ensures { result ≡ items.items }
    {
        ByTable { items }
    }

    /// All things, in the order of the tables' fields.
    pub fn as_slice(&self) -> &[T]
        ensures { result.now ≡ self.now }
    {
        &self.items
    }

    /// The thing of a table.
    pub fn get(&self, kind: TableKind) -> &T
        requires { length self.now ≡ 7 }
        ensures { slice_get self.now (place_of (table_of kind)) ≡ Some result.now }
    {
        &self.items[kind.place()]
    }

    /// The thing of a table, to be changed.
    pub fn get_mut(&mut self, kind: TableKind) -> &mut T
        requires { length self.old ≡ 7 }
        ensures* writes_back { sem 𝓛 (Lends (the_row T.row) T.row self.entry result (slice_set self.old (place_of (table_of kind)))) }
        ensures value { slice_get self.old (place_of (table_of kind)) ≡ Some result.now }
    {
        &mut self.items[kind.place()]
    }

    // The thing at a place, to be changed.
    pub(crate) fn at_mut(&mut self, place: usize) -> &mut T
        requires { place < length self.old }
        ensures* writes_back { sem 𝓛 (Lends (the_row T.row) T.row self.entry result (slice_set self.old place)) }
        ensures value { slice_get self.old place ≡ Some result.now }
    {
        &mut self.items[place]
    }
}
