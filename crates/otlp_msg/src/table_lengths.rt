//! The lengths of the tables, and the test of one index.
ghost use Rattle.std.specs.Prelude.{◌≡◌, [], ◌∷◌, ◌==◌, if◌then◌else◌};
ghost use Rattle.dict_rec.specs.Views.{dictionary_view};
ghost use Rattle.pb_wire.specs.declared.table_kind.TableKind.{TableKind as Kind};
ghost use Rattle.otlp_msg.specs.Lengths.{lengths_view};
ghost use Rattle.otlp_msg.specs.Walk.{lengths_in, spot, within};

use crate::{Holder, Path, Refusal};
use dict_rec::{Dictionary, TableKind};

/// How many entries each table has.
#[derive(Clone, Copy, Debug)]
pub(crate) struct TableLengths {
    lengths: [usize; 7],
}

impl TableLengths {
    pub fn of_dictionary(dictionary: &Dictionary<'_>) -> TableLengths
        ensures { (table : Kind) → lengths_view result table ≡ lengths_in (dictionary_view dictionary.now) table }
    {
        TableLengths {
            lengths: dictionary.lengths(),
        }
    }

    /// The length of a table. An empty one counts as its zero entry alone.
    pub fn of_table(&self, table: TableKind) -> u64
        ensures { result ≡ lengths_view self.now table }
    {
        (self.lengths[table.place()] as u64).max(1)
    }

    /// Whether the index of a holder's field, at a place of the field's list, is in its table; else its refusal.
    pub fn test(
        &self,
        table: TableKind,
        index: i32,
        holder: Holder,
        field: u32,
        item: u32,
    ) -> Result<(), Refusal>
        ensures { result ≡ within (lengths_view self.now) (spot table index holder field item ∷ []) }
    {
        let len = self.of_table(table);
        if index >= 0 && (index as u64) < len {
            return Ok(());
        }
        let path = Path {
            holder,
            field,
            item,
        };
        Err(Refusal::Dangling {
            table,
            index,
            len,
            path,
        })
    }
}
