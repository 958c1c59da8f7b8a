//! The lengths of the texts of a dictionary's entries.
ghost use Rattle.std.specs.Prelude.{◌≡◌, IfOk, IfSome, slice_get};
ghost use Rattle.meaning.specs.Message.{tables_in};
ghost use Rattle.pb_wire.specs.TableKinds.{table_of};
ghost use Rattle.dict_rec.specs.Views.{dictionary_view};
ghost use Rattle.entry_text.specs.Lengths.{AreLengths, AreKept, entry_length};

use crate::columns::Columns;
use crate::{HoldsTables, Meanings};
use dict_rec::{Dictionary, TableKind};
use pb_wire::List;
use std::alloc::Global;

/// A holder of a dictionary, and of the lengths of texts of its entries.
pub trait HoldsLengths<'a>: HoldsTables<'a> {
    /// The length of the text of the entry of an index, if it is kept.
    fn kept(&self, kind: TableKind, index: &i32) -> Option<u128>
        ensures { IfSome result (λ bytes. bytes ≡ entry_length (Self.tables self.now) (table_of kind) index.now) };

    /// Keeps the lengths of the first entries of a table.
    fn keep(self, kind: TableKind, lengths: List<u128>) -> Self
        requires { AreLengths (Self.tables self) (table_of kind) lengths }
        ensures { Self.tables result ≡ Self.tables self };
}

/// A dictionary that is held by reference, and lengths of texts of its entries.
#[derive(Drop)]
pub struct HeldLengths<'w, 'a> {
    pub(crate) dictionary: &'w Dictionary<'a>,
    columns: Columns,
    ghost right: { AreKept (tables_in (dictionary_view dictionary.now)) columns },
}

impl<'w, 'a> HeldLengths<'w, 'a> {
    /// A dictionary, and no lengths.
    pub fn of(alloc: Global, dictionary: &'w Dictionary<'a>) -> HeldLengths<'w, 'a>
        ensures { result.dictionary.now ≡ dictionary.now }
    {
        HeldLengths {
            dictionary,
            columns: Columns::begin(alloc),
        }
    }
}

impl<'w, 'a> Meanings for HeldLengths<'w, 'a> {
    ghost tables = { λ h. tables_in (dictionary_view h.dictionary.now) };
}

impl<'w, 'a> HoldsTables<'a> for HeldLengths<'w, 'a> {
    fn dictionary(&self) -> &Dictionary<'a> {
        self.dictionary
    }
}

impl<'w, 'a> HoldsLengths<'a> for HeldLengths<'w, 'a> {
    fn kept(&self, kind: TableKind, index: &i32) -> Option<u128> {
        if *index < 0 {
            return None;
        }
        number_at(self.columns.get(kind), *index as usize)
    }

    fn keep(self, kind: TableKind, lengths: List<u128>) -> HeldLengths<'w, 'a> {
        let mut columns = self.columns;
        columns.set(kind, lengths);
        HeldLengths {
            dictionary: self.dictionary,
            columns,
        }
    }
}

// The number at a place of a list.
fn number_at(numbers: &[u128], place: usize) -> Option<u128>
    ensures { result ≡ slice_get numbers.now place }
{
    numbers.get(place).copied()
}
