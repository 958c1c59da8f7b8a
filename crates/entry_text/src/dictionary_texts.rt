//! The texts of a dictionary's entries.
ghost use Rattle.std.specs.Prelude.{◌≡◌, slice_get};
ghost use Rattle.std.specs.Option.{option_copied};
ghost use Rattle.schema.specs.Messages.{entry};
ghost use Rattle.schema.specs.Shape.{Index};
ghost use Rattle.meaning.specs.Message.{tables_in};
ghost use Rattle.dict_rec.specs.Views.{dictionary_view};
ghost use Rattle.shown.specs.Direct.{meant};
ghost use Rattle.entry_text.specs.DictionaryTexts.{or_empty};

use crate::{Entry, EntryText, EntryTexts, Held, HoldsTables, Meanings};
use dict_rec::Dictionary;
use line_text::TextOut;
use std::alloc::Global;

/// A dictionary whose entries are put as they stand. An index below 0 or past the end of its table puts the empty entry. It takes no
/// memory.
#[derive(Drop)]
pub struct Direct<H> {
    pub(crate) held: H,
    alloc: Global,
}

impl<'w, 'a> Direct<Held<'w, 'a>> {
    /// The entries of a dictionary.
    pub fn of(alloc: Global, dictionary: &'w Dictionary<'a>) -> Direct<Held<'w, 'a>>
        ensures { result.held ≡ dictionary_view dictionary.now }
    {
        Direct {
            held: Held::of(dictionary),
            alloc,
        }
    }
}

impl<H: Meanings> Meanings for Direct<H> {
    ghost tables = { λ d. H.tables d.held };
}

impl<'a, H, E, T, O> EntryTexts<'a, E, T, O> for Direct<H>
where
    O: TextOut<T>,
    H: HoldsTables<'a>,
    E: EntryText<'a, Direct<H>, T, O> + Drop,
{
    fn put_entry(&self, out: &mut O, to: &mut T, index: &i32) {
        match entry_at::<E>(self.held.dictionary(), index) {
            Some(entry) => entry.put_text(self, out, to),
            None => E::none(self.alloc).put_text(self, out, to),
        }
    }
}

// The entry of an index, if its table has it.
pub(crate) fn entry_at<'w, 'a, E: Entry<'a>>(
    dictionary: &'w Dictionary<'a>,
    index: &i32,
) -> Option<&'w E>
    ensures { let tables = tables_in (dictionary_view dictionary.now) in
        meant tables (Index E.table (entry E.table)) index.now ≡ meant tables (entry E.table) (or_empty E.table E.view (option_copied result)) }
{
    if *index < 0 {
        return None;
    }
    item_at(E::entries(dictionary), *index as usize)
}

// The element at a place of a list.
fn item_at<E>(items: &[E], place: usize) -> Option<&E>
    ensures { option_copied result ≡ slice_get items.now place }
{
    items.get(place)
}
