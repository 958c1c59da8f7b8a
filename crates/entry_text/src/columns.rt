//! Lengths of texts, a list for each table.
ghost use Rattle.std.specs.Prelude.{◌≡◌, []};
ghost use Rattle.schema.specs.Shape.{Table};
ghost use Rattle.pb_wire.specs.TableKinds.{table_of};
ghost use Rattle.entry_text.specs.Lengths.{column, with_column};

use dict_rec::TableKind;
use pb_wire::List;
use std::alloc::Global;

/// A list of lengths for each table.
#[derive(Debug, Drop)]
pub struct Columns {
    pub(crate) mappings: List<u128>,
    pub(crate) locations: List<u128>,
    pub(crate) functions: List<u128>,
    pub(crate) links: List<u128>,
    pub(crate) strings: List<u128>,
    pub(crate) attributes: List<u128>,
    pub(crate) stacks: List<u128>,
}

impl Columns {
    // No lengths.
    pub(crate) fn begin(alloc: Global) -> Columns
        ensures { (T : Table) → column T result ≡ [] }
    {
        Columns {
            mappings: List::begin(alloc),
            locations: List::begin(alloc),
            functions: List::begin(alloc),
            links: List::begin(alloc),
            strings: List::begin(alloc),
            attributes: List::begin(alloc),
            stacks: List::begin(alloc),
        }
    }

    // The lengths of a table.
    pub(crate) fn get(&self, kind: TableKind) -> &[u128]
        ensures { result.now ≡ column (table_of kind) self.now }
    {
        match kind {
            TableKind::Mapping => self.mappings.as_slice(),
            TableKind::Location => self.locations.as_slice(),
            TableKind::Function => self.functions.as_slice(),
            TableKind::Link => self.links.as_slice(),
            TableKind::String => self.strings.as_slice(),
            TableKind::Attribute => self.attributes.as_slice(),
            TableKind::Stack => self.stacks.as_slice(),
        }
    }

    // Gives a table other lengths.
    pub(crate) fn set(&mut self, kind: TableKind, lengths: List<u128>)
        ensures { self.new ≡ with_column (table_of kind) lengths self.old }
    {
        match kind {
            TableKind::Mapping => self.mappings = lengths,
            TableKind::Location => self.locations = lengths,
            TableKind::Function => self.functions = lengths,
            TableKind::Link => self.links = lengths,
            TableKind::String => self.strings = lengths,
            TableKind::Attribute => self.attributes = lengths,
            TableKind::Stack => self.stacks = lengths,
        }
    }
}
