//! Keys that are bytes.
ghost use Rattle.std.specs.Prelude.{◌≡◌, ◌∷◌, [], List, ℕ, IfOk, nat_eq};
ghost use Rattle.std.specs.Cmp.Lexicographic.{pointwise, bytes_decides};
ghost use Rattle.std.specs.Cmp.Rules.{comparing, hashing};
ghost use Rattle.std.proofs.Common.{rules};

use crate::Key;
use pb_wire::{Blob, NoMemory};
use std::alloc::Global;
use std::hash::{Hash, Hasher};
use std::marker::Model;

/// The key of an entry of a dictionary, seen as the list of its bytes: those of a string, and of any other entry its
/// canonical bytes in new indexes.
#[derive(Debug, Drop)]
pub struct EntryKey {
    bytes: Blob,
}

impl Model for EntryKey {
    ghost Value = { List ℕ };

    ghost view = { λ k. k.bytes };
}

impl EntryKey {
    /// The key of these bytes, which are moved. It takes no memory.
    pub fn from_blob(bytes: Blob) -> EntryKey
        ensures { result ≡ bytes }
    {
        EntryKey { bytes }
    }

    /// The key of a copy of these bytes.
    ///
    /// # Errors
    ///
    /// Out of memory.
    pub fn copy_of(alloc: Global, bytes: &[u8]) -> Result<EntryKey, NoMemory>
        ensures { IfOk result (λ k. k ≡ bytes.now) }
    {
        Ok(EntryKey {
            bytes: Blob::copy_of(alloc, bytes)?,
        })
    }

    /// The bytes.
    pub fn as_slice(&self) -> &[u8]
        ensures { result.now ≡ self.now }
    {
        self.bytes.as_slice()
    }
}

impl PartialEq for EntryKey {
    ghost eq = { pointwise nat_eq };

    ghost laws = { Prim.search (comparing, rules) };

    fn eq(&self, other: &EntryKey) -> bool {
        self.as_slice() == other.as_slice()
    }
}

impl Eq for EntryKey {
    ghost laws = { Prim.search (comparing, rules) };
}

impl Hash for EntryKey {
    ghost hash_input = { λ key. key ∷ [] };

    ghost respects_eq = { Prim.search (hashing, rules) };

    // One write: a slice's own hash writes byte by byte.
    fn hash<H: Hasher>(&self, state: &mut H) {
        state.write(self.as_slice());
    }
}

impl Key for EntryKey {
    ghost same = { λ a b e. (bytes_decides a b).0 e };
}
