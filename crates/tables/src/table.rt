//! A table that is hashed.
ghost use Rattle.std.specs.Prelude.{◌≡◌, ◌-◌, ◌^◌, ◌<◌, ◌∷◌, [], length, IfOk, IsOkAnd};
ghost use Rattle.tables.specs.Keys.{IsInterning};

use crate::{Interner, Key, Mark, Steps};
use indexmap::IndexSet;
use pb_wire::NoMemory;
use std::alloc::Global;
use std::hash::BuildHasher;
use std::marker::Model;
use std::sync::ledger::Ledger;

/// A table that finds a key by its hash, seen as the list of its keys.
#[derive(Drop)]
pub struct Table<K: Key, S: BuildHasher> {
    set: IndexSet<K, S>,
}

impl<K: Key, S: BuildHasher> Model for Table<K, S> {
    ghost use Rattle.std.specs.Prelude.{List};
    ghost use Rattle.tables.specs.Keys.{AreTableKeys};

    ghost Value = { List K };

    ghost view = { λ t. t.set.keys };

    ghost invariant = { λ t. AreTableKeys t.set.keys };
}

impl<K: Key, S: BuildHasher> Table<K, S> {
    /// No keys. The hasher decides how fast a key is found, and nothing else.
    ///
    /// # Errors
    ///
    /// None today: the first key takes the first memory.
    pub fn begin(alloc: Global, hasher: S) -> Result<Table<K, S>, NoMemory>
        ensures { IsOkAnd result (λ t. t ≡ []) }
    {
        Ok(Table {
            set: IndexSet::with_hasher(alloc, hasher),
        })
    }
}

impl<K: Key + Drop, S: BuildHasher + Drop> Table<K, S> {
    /// A table of one key. It counts no step.
    ///
    /// # Errors
    ///
    /// Out of memory. Hasher and key are dropped.
    pub fn start(alloc: Global, hasher: S, key: K) -> Result<Table<K, S>, NoMemory>
        ensures { IfOk result (λ t. t ≡ key ∷ []) }
    {
        let mut set = IndexSet::with_hasher(alloc, hasher);
        set.insert_full(key)?;
        Ok(Table { set })
    }
}

impl<K: Key + Drop, S: BuildHasher> Table<K, S> {
    // The index of the key. A key that is not there yet goes to the end. It counts no step.
    fn insert(&mut self, key: K) -> Result<u32, NoMemory>
        requires few { length self.old < 2 ^ 31 - 1 }
        ensures interned { IsInterning self.old key self.new result }
    {
        let (place, _) = self.set.insert_full(key)?;
        Ok(place as u32)
    }
}

impl<K: Key + Drop, S: BuildHasher> Interner<K> for Table<K, S> {
    ghost keys = { λ t. t };

    fn intern<L: Ledger>(&mut self, key: K, steps: &mut Steps<L>) -> Result<u32, NoMemory> {
        steps.tick();
        self.insert(key)
    }

    fn get(&self, index: u32) -> Option<&K> {
        self.set.get_index(index as usize)
    }

    fn len(&self) -> u32 {
        self.set.len() as u32
    }

    fn mark(&self) -> Mark {
        Mark::at(self.len())
    }

    fn back_to(&mut self, mark: Mark) {
        self.set.truncate(mark.len() as usize);
    }
}
