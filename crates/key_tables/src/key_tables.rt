//! The tables of a new dictionary, and the length of its spelling.
ghost use Rattle.std.specs.Prelude.{◌≡◌, ◌+◌, ◌<◌, ◌≤◌, ◌++◌, ◌^◌, [], length, false, IfOk, OnOk, OnErr, Some, slice_get};
ghost use Rattle.schema.specs.Shape.{Table as OfSchema};
ghost use Rattle.schema.specs.Tables.{same_table};
ghost use Rattle.pb_wire.specs.TableKinds.{table_of};
ghost use Rattle.tables.specs.Keys.{Interned};
ghost use Rattle.schema.specs.Prefix.{IsPrefix};
ghost use Rattle.key_tables.specs.Keys.{AreFew, ArePrefixes, CanBeCut, IsMark, Keys, at, cut_to, keys_text, lengths, zero_keys};

use crate::filling::{Tables, cut_back, entry_len, intern_in, marks, put_tables};
use crate::{ByTable, KeyTablesMark};
use pb_wire::{Blob, NoMemory, TableKind};
use std::alloc::Global;
use std::hash::BuildHasher;
use std::marker::Model;
use std::mem;
use std::sync::ledger::Ledger;
use tables::Steps;

// The greatest length of a spelling.
const MOST_BYTES: u64 = 0x4000_0000_0000_0000;

/// The keys of distinct entries by table, each table in the order in which its entries came, and the length of their spelling.
/// It is seen as the keys of each table, in the order of the tables' fields. Calls by kind ask that there are seven tables.
#[derive(Drop)]
pub struct KeyTables<S: BuildHasher> {
    tables: Tables<S>,
    len: u64,
}

impl<S: BuildHasher> Model for KeyTables<S> {
    ghost use Rattle.std.specs.Prelude.{◌≡◌, ◌≤◌, ◌^◌, length};
    ghost use Rattle.key_tables.specs.Keys.{AreFew, Keys, keys_text};

    ghost Value = { Keys };

    ghost view = { λ t. t.tables };

    ghost invariant = { λ t. (t.len ≡ length (keys_text t.tables)) × (t.len ≤ 2 ^ 62) × AreFew t.tables };
}

impl<S: BuildHasher + Drop> KeyTables<S> {
    // Tables of their zero entries alone, whose spelling has two bytes a table.
    pub(crate) fn of_zeros(tables: Tables<S>) -> KeyTables<S>
        requires { tables ≡ zero_keys }
        ensures { result ≡ zero_keys }
    {
        KeyTables { tables, len: 14 }
    }

    /// The number of entries of a table.
    pub fn len(&self, kind: TableKind) -> u32
        requires { length self.now ≡ 7 }
        ensures is { result ≡ length (at self.now (table_of kind)) }
        ensures few { AreFew self.now }
    {
        self.tables.get(kind).len()
    }

    /// The length of the spelling of all entries, in bytes.
    pub fn text_len(&self) -> u64
        ensures is { result ≡ length (keys_text self.now) }
        ensures most { result ≤ 2 ^ 62 }
        ensures few { AreFew self.now }
    {
        self.len
    }

    /// The place of a key in its table, where it goes to the end if it is new. It counts at most one step.
    ///
    /// # Errors
    ///
    /// Out of memory. A full table, and tables whose spelling could pass 2^62 bytes, answer this too. The tables are as before.
    pub fn intern<L: Ledger>(
        &mut self,
        kind: TableKind,
        key: &[u8],
        steps: &mut Steps<L>,
    ) -> Result<u32, NoMemory>
        requires { length self.old ≡ 7 }
        ensures interned { IfOk result (Interned (at self.old (table_of kind)) key.now (at self.new (table_of kind))) }
        ensures others { OnOk result ((T : OfSchema) → same_table T (table_of kind) ≡ false → at self.new T ≡ at self.old T) }
        ensures same { OnErr result (self.new ≡ self.old) }
        ensures few { AreFew self.new }
        ensures kept { (base : Keys) → ArePrefixes base self.old → ArePrefixes base self.new }
        ensures seven { length self.new ≡ 7 }
        ensures steps { steps.new ≤ steps.old + 1 }
    {
        let more = entry_len(kind, key);
        if self.len + more > MOST_BYTES {
            return Err(NoMemory);
        }
        let count = self.tables.get(kind).len();
        let place = intern_in(&mut self.tables, kind, key, steps)?;
        if place < count {
            return Ok(place);
        }
        self.len += more;
        Ok(place)
    }

    /// A mark of the tables as they are, for `back_to`. It takes no memory.
    pub fn mark(&self) -> KeyTablesMark
        requires { length self.now ≡ 7 }
        ensures { IsMark result self.now }
    {
        KeyTablesMark {
            lengths: marks(&self.tables),
            len: self.len,
        }
    }

    /// Drops the entries that came after the mark. It takes no memory.
    pub fn back_to(&mut self, mark: KeyTablesMark)
        requires seven { length self.old ≡ 7 }
        requires mark { CanBeCut mark self.old }
        ensures { self.new ≡ cut_to mark.lengths self.old }
    {
        cut_back(&mut self.tables, &mark.lengths);
        self.len = mark.len;
    }

    /// The tables, in whose place there are none. It takes no memory.
    pub fn take(&mut self, alloc: Global) -> KeyTables<S>
        ensures taken { result ≡ self.old }
        ensures none { self.new ≡ [] }
    {
        mem::replace(
            self,
            KeyTables {
                tables: ByTable::from_vec(Vec::new(alloc)),
                len: 0,
            },
        )
    }

    /// Puts all keys at the end, each after its tag and length, in the order of the tables' fields.
    ///
    /// # Errors
    ///
    /// Out of memory. What was there is still in front.
    pub fn put_keys(&self, out: &mut Blob) -> Result<(), NoMemory>
        requires { length self.now ≡ 7 }
        ensures front { IsPrefix out.old out.new }
        ensures ok { OnOk result (out.new ≡ out.old ++ keys_text self.now) }
    {
        put_tables(out, self.tables.as_slice())
    }
}
