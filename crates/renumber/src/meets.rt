//! Records whose indexes are met, and entries of tables.
ghost use Rattle.std.specs.Prelude.{◌≡◌, OnOk, map};
ghost use Rattle.schema.specs.Each.{Each};
ghost use Rattle.schema.specs.Shape.{Table};
ghost use Rattle.meaning.specs.Tables.{entry};
ghost use Rattle.meaning.specs.Tree.{tree};
ghost use Rattle.pb_wire.specs.TableKinds.{table_of};
ghost use Rattle.renumber.specs.Entries.{IsPart, IsSource, old_entries};
ghost use Rattle.renumber.specs.Walk.{Moves, Walked, missed};

use crate::walk::Walk;
use dict_rec::Dictionary;
use pb_wire::{NoMemory, Rows, TableKind};
use std::alloc::Global;
use std::hash::BuildHasher;
use std::sync::ledger::Ledger;
use tables::Steps;

/// A record whose indexes can be met. An implementation gives one line for each row that holds some, in the order of the rows.
pub trait Meets: Rows {
    /// Makes each index of the record known. Entries that are new go into the tables after those that they name.
    ///
    /// # Errors
    ///
    /// Out of memory.
    fn meet<'w, 'd, S: BuildHasher + Drop, L: Ledger>(
        &self,
        alloc: Global,
        walk: &mut Walk<'w, 'd, S>,
        steps: &mut Steps<L>,
    ) -> Result<(), NoMemory>
        requires { IsPart Self.shape walk.old.source (Self.view self.now) }
        ensures moves { Moves Self.shape (missed result) walk.old walk.new steps.old steps.new }
        ensures walked { OnOk result (Walked Self.shape walk.old walk.new (Self.view self.now)) };
}

/// A record that is the entry of a table.
pub trait Entry<'a>: Meets {
    ghost table: { Table };

    /// The kind of its table.
    fn kind() -> TableKind
        ensures kind { table_of result ≡ table }
        ensures shape { Self.shape ≡ entry table };

    /// The entries of a dictionary.
    fn entries<'w>(dictionary: &'w Dictionary<'a>) -> &'w [Self]
        ensures all { old_entries dictionary.now table ≡ map (tree Self.shape) (map Self.view result.now) }
        ensures parts { IsSource dictionary.now → Each (IsPart Self.shape dictionary.now) (map Self.view result.now) };
}
