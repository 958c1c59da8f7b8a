//! The state of a walk.
ghost use Rattle.std.specs.Prelude.{◌≡◌, ◌<◌, ◌^◌, pos, length, IfOk, OnOk};
ghost use Rattle.schema.specs.Moved.{moved};
ghost use Rattle.schema.specs.Shape.{Strings};
ghost use Rattle.schema.specs.Spell.{spell};
ghost use Rattle.meaning.specs.Meaning.{entry_at};
ghost use Rattle.meaning.specs.Memo.{Knows, index_in};
ghost use Rattle.meaning.specs.Tables.{entry};
ghost use Rattle.meaning.specs.Tree.{Integer, tree};
ghost use Rattle.pb_wire.specs.TableKinds.{table_of};
ghost use Rattle.key_tables.specs.Keys.{at};
ghost use Rattle.renumber.specs.Entries.{IsKeyOf, IsPart, IsSource, index_into, old_entries};
ghost use Rattle.renumber.specs.Marks.{CanBeWalkedBack, IsWalkMark, walked_back};
ghost use Rattle.renumber.specs.Walk.{IsOpen, IsReady, IsUnmet, Moves, Walked, memo_of, missed};

use crate::meets::{Entry, Meets};
use crate::memo::Memo;
use crate::spot::Spot;
use crate::walk_mark::WalkMark;
use dict_rec::Dictionary;
use key_tables::KeyTables;
use pb_wire::{Blob, NewIndexes, NoMemory, Rows, TableKind};
use std::alloc::Global;
use std::hash::BuildHasher;
use std::marker::Model;
use std::sync::ledger::Ledger;
use tables::Steps;

/// The dictionary of a message, the tables of a new one, and the memo. It gives old indexes their new ones: an index that was
/// not met becomes 0.
#[derive(Drop)]
pub struct Walk<'w, 'a, S: BuildHasher> {
    source: &'w Dictionary<'a>,
    tables: KeyTables<S>,
    memo: Memo,
}

impl<'w, 'a, S: BuildHasher> Model for Walk<'w, 'a, S> {
    ghost use Rattle.renumber.specs.Entries.{IsSource};
    ghost use Rattle.renumber.specs.Walk.{IsReady, State};
    ghost use Rattle.std.specs.Coded.{codes};
    ghost use Rattle.any_value.specs.Codes.{any_code};

    ghost Value = { State };

    ghost coded = { Prim.hlevel (codes, any_code) };

    ghost view = { λ w. record { source = w.source.now; keys = w.tables; memo = w.memo.lists; noted = w.memo.noted } };

    ghost invariant = { λ w. IsSource w.source.now × IsReady w.source.now w.tables w.memo.lists };
}

impl<'w, 'a, S: BuildHasher + Drop> NewIndexes for Walk<'w, 'a, S> {
    ghost to = { λ w. index_in (at w.memo) };

    #[inline(always)]
    fn new(&self, table: TableKind, index: &i32) -> i32 {
        self.memo.index(table, index)
    }
}

// The spelling of a record with new indexes.
#[tactic(auto, using(schema_laws::proofs::Onto::onto_len, schema_laws::proofs::Onto::onto))]
fn text_with<T: Rows, I: NewIndexes>(
    alloc: Global,
    message: &T,
    indexes: &I,
) -> Result<Blob, NoMemory>
    requires { length (spell T.shape (moved (I.to indexes.now) T.shape (T.view message.now))) < 2 ^ 63 }
    ensures { IfOk result (λ text. text ≡ spell T.shape (moved (I.to indexes.now) T.shape (T.view message.now))) }
{
    let mut text = Blob::with_room(alloc, message.rows_len(indexes) as usize)?;
    message.put_rows(indexes, &mut text)?;
    Ok(text)
}

impl<'w, 'a, S: BuildHasher + Drop> Walk<'w, 'a, S> {
    /// A walk over a message with this dictionary. It takes no memory.
    pub fn begin(source: &'w Dictionary<'a>, tables: KeyTables<S>, memo: Memo) -> Walk<'w, 'a, S>
        requires source { IsSource source.now }
        requires ready { IsReady source.now tables memo.lists }
        ensures source { result.source ≡ source.now }
        ensures keys { result.keys ≡ tables }
        ensures memo { result.memo ≡ memo.lists }
        ensures noted { result.noted ≡ memo.noted }
    {
        Walk {
            source,
            tables,
            memo,
        }
    }

    /// The tables, handed back. It takes no memory.
    pub fn into_tables(self) -> KeyTables<S>
        ensures keys { result ≡ self.entry.keys }
        ensures source { IsSource self.entry.source }
        ensures ready { IsReady self.entry.source result self.entry.memo }
    {
        let Walk { tables, .. } = self;
        tables
    }

    /// The tables and the memo, handed back. It takes no memory.
    pub fn into_parts(self) -> (KeyTables<S>, Memo)
        ensures keys { result.0 ≡ self.entry.keys }
        ensures memo { result.1 ≡ memo_of self.entry }
        ensures source { IsSource self.entry.source }
        ensures ready { IsReady self.entry.source result.0 result.1.lists }
    {
        let Walk { tables, memo, .. } = self;
        (tables, memo)
    }

    /// The tables.
    pub fn tables(&self) -> &KeyTables<S>
        ensures keys { result.now ≡ self.now.keys }
        ensures source { IsSource self.now.source }
        ensures ready { IsReady self.now.source self.now.keys self.now.memo }
    {
        // A field of its own opens the invariant here.
        let _source = self.source;
        &self.tables
    }

    /// A mark of the walk as it is, for `back_to`. It takes no memory.
    pub fn mark(&self) -> WalkMark
        ensures { IsWalkMark result self.now }
    {
        WalkMark {
            keys: self.tables.mark(),
            memo: self.memo.mark(),
        }
    }

    /// Drops the keys that came after the mark, and forgets what was noted after it. It takes no memory, and time for what was
    /// added since.
    pub fn back_to(&mut self, mark: WalkMark)
        requires { CanBeWalkedBack mark self.old }
        ensures { self.new ≡ walked_back mark self.old }
    {
        self.tables.back_to(mark.keys);
        self.memo.back_to(mark.memo);
    }

    /// Goes on with another message's dictionary and a memo of it; the tables stay. It takes no memory.
    pub fn turn_to(&mut self, source: &'w Dictionary<'a>, memo: Memo)
        requires source { IsSource source.now }
        requires ready { IsReady source.now self.old.keys memo.lists }
        ensures source { self.new.source ≡ source.now }
        ensures keys { self.new.keys ≡ self.old.keys }
        ensures memo { self.new.memo ≡ memo.lists }
        ensures noted { self.new.noted ≡ memo.noted }
    {
        self.source = source;
        self.memo = memo;
    }

    // The dictionary of the message.
    #[inline(always)]
    fn source(&self) -> &'w Dictionary<'a>
        ensures same { result.now ≡ self.now.source }
        ensures source { IsSource result.now }
    {
        self.source
    }

    // The place of an entry that was not met yet, or None for an index that is known.
    #[inline(always)]
    fn unmet(&self, kind: TableKind, index: &i32) -> Option<u32>
        requires { IsPart (index_into (table_of kind)) self.now.source index.now }
        ensures { IsUnmet (table_of kind) self.now index.now result }
    {
        let memo = &self.memo;
        if *index == 0 {
            return None;
        }
        let place = *index as u32;
        match memo.get(kind, place as usize) {
            Some(_) => None,
            None => Some(place),
        }
    }

    // Enters a key for the entry at a place.
    fn enter_key<L: Ledger>(
        &mut self,
        kind: TableKind,
        place: u32,
        key: &[u8],
        steps: &mut Steps<L>,
    ) -> Result<(), NoMemory>
        requires place { IsOpen (table_of kind) self.old place }
        requires key { IsKeyOf (table_of kind) self.old.source self.old.keys place key.now }
        ensures moves { Moves (index_into (table_of kind)) (missed result) self.old self.new steps.old steps.new }
        ensures walked { OnOk result (Walked (index_into (table_of kind)) self.old self.new (pos place)) }
    {
        let new = self.tables.intern(kind, key, steps)?;
        self.memo.note(Spot { kind, place }, new)?;
        Ok(())
    }

    // Enters an entry, whose indexes are known, that is at a place.
    fn enter<E: Entry<'a> + 'w, L: Ledger>(
        &mut self,
        alloc: Global,
        found: &E,
        place: u32,
        steps: &mut Steps<L>,
    ) -> Result<(), NoMemory>
        requires place { IsOpen E.table self.old place }
        requires here { entry_at (old_entries self.old.source E.table) (entry E.table) (Integer (pos place)) ≡ tree E.shape (E.view found.now) }
        requires part { IsPart E.shape self.old.source (E.view found.now) }
        requires known { Knows (at self.old.memo) E.shape (E.view found.now) }
        ensures moves { Moves (index_into E.table) (missed result) self.old self.new steps.old steps.new }
        ensures walked { OnOk result (Walked (index_into E.table) self.old self.new (pos place)) }
    {
        let kind = E::kind();
        // A field of its own opens the invariant here.
        let _source = self.source;
        let text = text_with(alloc, found, &*self)?;
        self.enter_key(kind, place, text.as_slice(), steps)
    }

    /// Makes an index into the string table known.
    ///
    /// # Errors
    ///
    /// Out of memory.
    pub fn string<L: Ledger>(&mut self, index: &i32, steps: &mut Steps<L>) -> Result<(), NoMemory>
        requires { IsPart (index_into Strings) self.old.source index.now }
        ensures moves { Moves (index_into Strings) (missed result) self.old self.new steps.old steps.new }
        ensures walked { OnOk result (Walked (index_into Strings) self.old self.new index.now) }
    {
        match self.unmet(TableKind::String, index) {
            None => Ok(()),
            Some(place) => {
                let found = &self.source().string_table.as_slice()[place as usize];
                self.enter_key(TableKind::String, place, found.as_bytes(), steps)
            }
        }
    }

    /// Makes an index known, after those that its entry holds.
    ///
    /// # Errors
    ///
    /// Out of memory.
    pub fn index<E: Entry<'a> + 'w, L: Ledger>(
        &mut self,
        alloc: Global,
        index: &i32,
        steps: &mut Steps<L>,
    ) -> Result<(), NoMemory>
        requires { IsPart (index_into E.table) self.old.source index.now }
        ensures moves { Moves (index_into E.table) (missed result) self.old self.new steps.old steps.new }
        ensures walked { OnOk result (Walked (index_into E.table) self.old self.new index.now) }
    {
        match self.unmet(E::kind(), index) {
            None => Ok(()),
            Some(place) => {
                let found = &E::entries(self.source())[place as usize];
                found.meet(alloc, self, steps)?;
                self.enter(alloc, found, place, steps)
            }
        }
    }
}
