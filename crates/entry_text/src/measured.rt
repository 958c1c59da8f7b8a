//! Lengths of texts, each entry measured once.
ghost use Rattle.std.specs.Prelude.{◌≡◌, IfOk};
ghost use Rattle.meaning.specs.Message.{tables_in};
ghost use Rattle.dict_rec.specs.Views.{dictionary_view};
ghost use Rattle.schema.specs.Messages.{entry};
ghost use Rattle.shown.specs.Direct.{meant};
ghost use Rattle.line_text.specs.Counting.{capped};
ghost use Rattle.entry_text.specs.Lengths.{AreLengths, value_length};

use crate::dictionary_texts::entry_at;
use crate::{EntryText, EntryTexts, HeldLengths, HoldsLengths, Meanings};
use dict_rec::{Attr, Dictionary, Function, Link, Location, Mapping, Stack};
use line_text::{TextLength, TextOut};
use pb_wire::{List, NoMemory, TextRef};
use std::alloc::Global;

/// A dictionary with the lengths of its entries' texts, by which they are counted. An entry whose length is not kept is counted as it
/// stands, with the lengths of what it names.
#[derive(Drop)]
pub struct Measured<H> {
    pub(crate) held: H,
    alloc: Global,
}

impl<'w, 'a> Measured<HeldLengths<'w, 'a>> {
    /// Measures each entry of a dictionary, once. The lengths take 16 bytes an entry.
    pub fn of(
        alloc: Global,
        dictionary: &'w Dictionary<'a>,
    ) -> Result<Measured<HeldLengths<'w, 'a>>, NoMemory>
        ensures { IfOk result (λ m. tables_in (dictionary_view m.held.dictionary.now) ≡ tables_in (dictionary_view dictionary.now)) }
    {
        let begun = Measured {
            held: HeldLengths::of(alloc, dictionary),
            alloc,
        };
        let strings = measure::<TextRef<'a>, HeldLengths<'w, 'a>>(alloc, begun)?;
        let functions = measure::<Function, HeldLengths<'w, 'a>>(alloc, strings)?;
        let attributes = measure::<Attr<'a>, HeldLengths<'w, 'a>>(alloc, functions)?;
        let links = measure::<Link<'a>, HeldLengths<'w, 'a>>(alloc, attributes)?;
        let mappings = measure::<Mapping, HeldLengths<'w, 'a>>(alloc, links)?;
        let locations = measure::<Location, HeldLengths<'w, 'a>>(alloc, mappings)?;
        measure::<Stack, HeldLengths<'w, 'a>>(alloc, locations)
    }
}

impl<H: Meanings> Meanings for Measured<H> {
    ghost tables = { λ m. H.tables m.held };
}

impl<'a, H, E> EntryTexts<'a, E, (), TextLength> for Measured<H>
where
    H: HoldsLengths<'a>,
    E: EntryText<'a, Measured<H>, (), TextLength> + Drop,
{
    fn put_entry(&self, out: &mut TextLength, to: &mut (), index: &i32) {
        if let Some(bytes) = self.held.kept(E::kind(), index) {
            out.add(bytes);
            return;
        }
        match entry_at::<E>(self.held.dictionary(), index) {
            Some(entry) => entry.put_text(self, out, to),
            None => E::none(self.alloc).put_text(self, out, to),
        }
    }
}

// Measures the entries of a table.
fn measure<'a, E, H>(alloc: Global, measured: Measured<H>) -> Result<Measured<H>, NoMemory>
where
    H: HoldsLengths<'a> + Drop,
    E: EntryText<'a, Measured<H>, (), TextLength>,
    ensures { IfOk result (λ m. H.tables m.held ≡ H.tables measured.held) }
{
    match lengths_of::<E, H>(alloc, &measured) {
        Ok(lengths) => Ok(Measured {
            held: measured.held.keep(E::kind(), lengths),
            alloc,
        }),
        Err(stop) => Err(stop),
    }
}

// The lengths of the entries of a table.
fn lengths_of<'a, E, H>(alloc: Global, measured: &Measured<H>) -> Result<List<u128>, NoMemory>
where
    H: HoldsLengths<'a>,
    E: EntryText<'a, Measured<H>, (), TextLength>,
    ensures { IfOk result (λ lengths. AreLengths (H.tables measured.now.held) E.table lengths) }
{
    let entries = E::entries(measured.held.dictionary());
    let mut lengths = Vec::new(alloc);
    lengths.reserve_exact(entries.len())?;
    for entry in entries {
        lengths.push(length_of(measured, entry))?;
    }
    Ok(List::from_vec(lengths))
}

// The length of an entry.
fn length_of<'a, E, H>(measured: &Measured<H>, entry: &E) -> u128
where
    H: HoldsLengths<'a>,
    E: EntryText<'a, Measured<H>, (), TextLength>,
    ensures { result ≡ value_length (H.tables measured.now.held) E.table (E.view entry.now) }
{
    let mut length = TextLength::begin();
    entry.put_text(measured, &mut length, &mut ());
    length.bytes()
}
