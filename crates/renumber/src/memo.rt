//! The memo of a walk.
ghost use Rattle.std.specs.Prelude.{◌≡◌, ◌<◌, ◌≤◌, ◌^◌, ◌++◌, ◌∷◌, [], ℕ, length, get_or, map, replicate, set, None, IfOk, OnErr, OnOk};
ghost use Rattle.schema.specs.Shape.{Table};
ghost use Rattle.meaning.specs.Memo.{index_at, index_in, or_zero};
ghost use Rattle.pb_wire.specs.TableKinds.{table_of};
ghost use Rattle.key_tables.specs.Keys.{at};
ghost use Rattle.renumber.specs.Entries.{entry_count, old_entries};
ghost use Rattle.renumber.specs.Memos.{IsMemoMark, memo_back, noted_at, unset_each, unset_in};
ghost use Rattle.renumber.specs.Walk.{unmet_of};

use crate::mark::MemoMark;
use crate::spot::Spot;
use dict_rec::Dictionary;
use key_tables::ByTable;
use pb_wire::{NoMemory, TableKind};
use std::alloc::{AllocError, Global};
use std::marker::Model;

/// By table and old index, the new index of each entry that was met; and the spots of these entries, in the order in which they
/// were noted.
#[derive(Drop)]
pub struct Memo {
    tables: ByTable<Vec<Option<u32>>>,
    noted: Vec<Spot>,
}

impl Model for Memo {
    ghost use Rattle.std.specs.Prelude.{map};
    ghost use Rattle.renumber.specs.Memos.{MemoState};

    ghost Value = { MemoState };

    ghost view = { λ m. record { lists = map (λ new_indexes. new_indexes.items) m.tables; noted = m.noted.items } };
}

// So many entries, none of which was met.
fn none_of(alloc: Global, len: usize) -> Result<Vec<Option<u32>>, AllocError>
    ensures { IfOk result (λ new_indexes. new_indexes.items ≡ replicate len None) }
{
    vec![in alloc; None; len]
}

// One more table, none of whose entries was met.
fn add_unmet(tables: &mut Vec<Vec<Option<u32>>>, alloc: Global, len: usize) -> Result<(), NoMemory>
    ensures { OnOk result (map (λ new_indexes. new_indexes.items) tables.new.items ≡ map (λ new_indexes. new_indexes.items) tables.old.items ++ replicate len None ∷ []) }
{
    tables.push(none_of(alloc, len)?)?;
    Ok(())
}

// How many entries there are in tables of these lengths. Room is made for so many; no contract depends on this number.
fn entries_in(lengths: &[usize]) -> usize {
    let mut count = 0usize;
    for len in lengths {
        count = count.saturating_add(*len);
    }
    count
}

// The entry at this place is not met.
fn unset_at(new_indexes: &mut Vec<Option<u32>>, place: usize)
    ensures { new_indexes.new.items ≡ set new_indexes.old.items place None }
{
    if place < new_indexes.len() {
        new_indexes[place] = None;
    }
}

// The entry at a spot is not met.
fn unset(tables: &mut ByTable<Vec<Option<u32>>>, spot: Spot)
    requires { length tables.old ≡ 7 }
    ensures { map (λ new_indexes. new_indexes.items) tables.new ≡ unset_in spot (map (λ new_indexes. new_indexes.items) tables.old) }
{
    unset_at(tables.get_mut(spot.kind), spot.place as usize);
}

// The entries at spots are not met, the last one first.
fn unset_all(tables: &mut ByTable<Vec<Option<u32>>>, spots: &[Spot])
    requires { length tables.old ≡ 7 }
    ensures { map (λ new_indexes. new_indexes.items) tables.new ≡ unset_each spots.now (map (λ new_indexes. new_indexes.items) tables.old) }
{
    let count = spots.len();
    for done in 0..count {
        unset(tables, spots[count - 1 - done]);
    }
}

impl Memo {
    /// No entry of a dictionary was met. There is one place for each of its entries, and room to note them all.
    ///
    /// # Errors
    ///
    /// Out of memory.
    pub fn none(alloc: Global, dictionary: &Dictionary<'_>) -> Result<Memo, NoMemory>
        ensures none { IfOk result (λ m. (T : Table) → at m.lists T ≡ replicate (length (old_entries dictionary.now T)) None) }
        ensures seven { IfOk result (λ m. length m.lists ≡ 7) }
        ensures unmet { IfOk result (λ m. unmet_of m.lists ≡ entry_count (old_entries dictionary.now)) }
        ensures nothing { IfOk result (λ m. m.noted ≡ []) }
    {
        let lengths = dictionary.lengths();
        let mut tables = Vec::with_capacity(alloc, lengths.len())?;
        for len in &lengths {
            if let Err(stop) = add_unmet(&mut tables, alloc, *len) {
                return Err(stop);
            }
        }
        let noted = Vec::with_capacity(alloc, entries_in(&lengths))?;
        Ok(Memo {
            tables: ByTable::from_vec(tables),
            noted,
        })
    }

    // The new indexes of a table.
    #[inline(always)]
    fn of_kind(&self, kind: TableKind) -> &[Option<u32>]
        requires { length self.now.lists ≡ 7 }
        ensures { result.now ≡ at self.now.lists (table_of kind) }
    {
        self.tables.get(kind)
    }

    // The new index of an old entry, if it was met.
    #[inline(always)]
    pub(crate) fn get(&self, kind: TableKind, place: usize) -> Option<u32>
        requires seven { length self.now.lists ≡ 7 }
        requires within { place < length (at self.now.lists (table_of kind)) }
        ensures { result ≡ get_or (at self.now.lists (table_of kind)) place None }
    {
        self.of_kind(kind)[place]
    }

    // Notes the new index of an old entry, or nothing if it is out of memory.
    pub(crate) fn note(&mut self, spot: Spot, new: u32) -> Result<(), NoMemory>
        requires seven { length self.old.lists ≡ 7 }
        requires within { spot.place < length (at self.old.lists (table_of spot.kind)) }
        ensures noted { OnOk result (self.new ≡ noted_at spot new self.old) }
        ensures same { OnErr result (self.new ≡ self.old) }
    {
        self.noted.push(spot)?;
        self.tables.get_mut(spot.kind)[spot.place as usize] = Some(new);
        Ok(())
    }

    /// A mark of the memo as it is, for `back_to`. It takes no memory.
    pub fn mark(&self) -> MemoMark
        ensures { IsMemoMark result self.now }
    {
        MemoMark {
            count: self.noted.len(),
        }
    }

    /// Forgets what was noted after the mark: these entries are not met again. It takes no memory, and time for what was noted
    /// since.
    pub fn back_to(&mut self, mark: MemoMark)
        requires seven { length self.old.lists ≡ 7 }
        requires mark { mark ≤ length self.old.noted }
        ensures { self.new ≡ memo_back mark self.old }
    {
        let (_, since) = self.noted.as_slice().split_at(mark.count);
        unset_all(&mut self.tables, since);
        self.noted.truncate(mark.count);
    }

    // The new index of an old one, 0 where it was not met.
    #[inline(always)]
    pub(crate) fn index(&self, kind: TableKind, index: &i32) -> i32
        requires seven { length self.now.lists ≡ 7 }
        requires small { (T : Table) (i : ℕ) → or_zero (get_or (at self.now.lists T) i None) < 2 ^ 31 }
        ensures { result ≡ index_in (at self.now.lists) (table_of kind) index.now }
    {
        new_index(self.of_kind(kind), index)
    }
}

// The new index at a place.
#[inline(always)]
fn new_index(new_indexes: &[Option<u32>], index: &i32) -> i32
    requires { (i : ℕ) → or_zero (get_or new_indexes.now i None) < 2 ^ 31 }
    ensures { result ≡ index_at new_indexes.now index.now }
{
    let index = *index;
    if index < 0 {
        return 0;
    }
    match new_indexes.get(index as usize) {
        Some(Some(new)) => *new as i32,
        _ => 0,
    }
}
