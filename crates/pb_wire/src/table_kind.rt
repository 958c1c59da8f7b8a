//! The kinds of tables.
ghost use Rattle.std.specs.Prelude.{◌≡◌, ◌<◌, ◌≤◌};
ghost use Rattle.schema.specs.Tables.{field_of};
ghost use Rattle.pb_wire.specs.TableKinds.{place_of, table_of};

/// The kinds of tables of a dictionary, in the order of its fields.
#[derive(Clone, Copy, Debug, PartialEq, Eq)]
pub enum TableKind {
    Mapping,
    Location,
    Function,
    Link,
    String,
    Attribute,
    Stack,
}

impl TableKind {
    /// Its place among the tables, from 0.
    #[inline(always)]
    pub fn place(self) -> usize
        ensures is { result ≡ place_of (table_of self) }
        ensures below { result < 7 }
    {
        match self {
            TableKind::Mapping => 0,
            TableKind::Location => 1,
            TableKind::Function => 2,
            TableKind::Link => 3,
            TableKind::String => 4,
            TableKind::Attribute => 5,
            TableKind::Stack => 6,
        }
    }

    /// The number of its field in the dictionary.
    #[inline(always)]
    pub fn number(self) -> u32
        ensures is { result ≡ field_of (table_of self) }
        ensures above { 1 ≤ result }
        ensures below { result ≤ 7 }
    {
        self.place() as u32 + 1
    }
}
