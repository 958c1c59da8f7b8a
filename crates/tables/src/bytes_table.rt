//! A hashed table of keys that are bytes.
ghost use Rattle.std.specs.Prelude.{◌≡◌, ◌+◌, ◌-◌, ◌^◌, ◌/◌, ◌<◌, ◌≤◌, ◌↔◌, ◌∷◌, [], length, slice_get, take, IfOk, IsSome};
ghost use Rattle.std.specs.Option.{option_copied};
ghost use Rattle.tables.specs.Keys.{AreDistinct, IsInterning};

use crate::key_run::{KeyRun, add, count, cut_back, find, get, no_keys};
use crate::{Mark, Steps};
use pb_wire::NoMemory;
use std::alloc::Global;
use std::hash::{BuildHasher, Hasher};
use std::marker::Model;
use std::sync::ledger::Ledger;

/// A table of keys that are bytes, which finds a key by its hash, seen as the list of its keys. The bytes of all keys are in one
/// run. Beside them a key takes a row of 8 bytes, and 8 to 16 bytes of the buckets and links through which keys are found; the first
/// key makes 8 buckets.
#[derive(Drop)]
pub struct BytesTable<S: BuildHasher> {
    hasher: S,
    keys: KeyRun,
}

impl<S: BuildHasher> Model for BytesTable<S> {
    ghost use Rattle.std.specs.Prelude.{ℕ, List, ◌/◌, ◌^◌};
    ghost use Rattle.tables.specs.Keys.{AreTableKeys};
    ghost use Rattle.tables.specs.KeyRun.{AreHashed, AreKept, keys_in};

    ghost Value = { List (List ℕ) };

    ghost view = { λ t. keys_in t.keys.rows.items t.keys.run.items };

    ghost invariant = { λ t. AreTableKeys (keys_in t.keys.rows.items t.keys.run.items)
        × AreKept t.keys.run.items t.keys.rows.items t.keys.heads.items t.keys.links.items
        × AreHashed (λ bytes. S.Hasher.finish (S.Hasher.write (S.build_hasher t.hasher) bytes) / 2 ^ 32) t.keys.rows.items t.keys.run.items };
}

// The upper half of the hash of bytes.
fn hash_of<S: BuildHasher>(hasher: &S, bytes: &[u8]) -> u32
    ensures { result ≡ S.Hasher.finish (S.Hasher.write (S.build_hasher hasher.now) bytes.now) / 2 ^ 32 }
{
    let mut state = hasher.build_hasher();
    // One write: a slice's own hash writes byte by byte.
    state.write(bytes);
    (state.finish() >> 32) as u32
}

impl<S: BuildHasher> BytesTable<S> {
    /// No keys. It takes no memory. The hasher decides how fast a key is found, and nothing else.
    pub fn begin(alloc: Global, hasher: S) -> BytesTable<S>
        ensures { result ≡ [] }
    {
        BytesTable {
            hasher,
            keys: no_keys(alloc),
        }
    }

    /// A table of one key, which is copied. It counts no step.
    ///
    /// # Errors
    ///
    /// Out of memory. The hasher is dropped.
    pub fn start(alloc: Global, hasher: S, bytes: &[u8]) -> Result<BytesTable<S>, NoMemory>
    where
        S: Drop,
        ensures { IfOk result (λ t. t ≡ bytes.now ∷ []) }
    {
        let mut table = BytesTable::begin(alloc, hasher);
        table.insert(bytes)?;
        Ok(table)
    }

    /// The index of the key of these bytes. A key that is not there yet is copied, and goes to the end. It counts exactly one
    /// step.
    ///
    /// # Errors
    ///
    /// Out of memory for a new key, or if all keys had 2^32 bytes or more. The keys are as before, and the step is counted.
    pub fn intern<L: Ledger>(&mut self, bytes: &[u8], steps: &mut Steps<L>) -> Result<u32, NoMemory>
        requires few { length self.old < 2 ^ 31 - 1 }
        ensures interned { IsInterning self.old bytes.now self.new result }
        ensures steps { steps.new ≡ steps.old + 1 }
    {
        steps.tick();
        self.insert(bytes)
    }

    // The index of the key of these bytes. A key that is not there yet is copied, and goes to the end. It counts no step.
    fn insert(&mut self, bytes: &[u8]) -> Result<u32, NoMemory>
        requires few { length self.old < 2 ^ 31 - 1 }
        ensures interned { IsInterning self.old bytes.now self.new result }
    {
        let hash = hash_of(&self.hasher, bytes);
        match find(&self.keys, bytes, hash) {
            Some(place) => Ok(place as u32),
            None => {
                let place = count(&self.keys) as u32;
                add(&mut self.keys, bytes, hash)?;
                Ok(place)
            }
        }
    }

    /// The bytes of the key with this index, or None where the index is at least the number of keys. It takes no memory.
    pub fn get(&self, index: u32) -> Option<&[u8]>
        ensures value { option_copied result ≡ slice_get self.now index }
        ensures within { IsSome result ↔ (index < length self.now) }
    {
        get(&self.keys, index as usize)
    }

    /// The number of keys. It takes no memory.
    pub fn len(&self) -> u32
        ensures len { result ≡ length self.now }
        ensures most { result < 2 ^ 31 }
        ensures distinct { AreDistinct self.now }
    {
        count(&self.keys) as u32
    }

    /// A mark of the number of keys, for `back_to`. It takes no memory.
    pub fn mark(&self) -> Mark
        ensures { result ≡ length self.now }
    {
        Mark::at(self.len())
    }

    /// Drops the keys that came after the mark. It takes no memory.
    pub fn back_to(&mut self, mark: Mark)
        requires { mark ≤ length self.old }
        ensures { self.new ≡ take mark self.old }
    {
        cut_back(&mut self.keys, mark.len() as usize);
    }
}
