//! What a table of distinct keys promises, whatever its body.

use crate::{Mark, Steps};
use pb_wire::NoMemory;
use std::sync::ledger::Ledger;

/// Distinct keys in the order in which they were first met. The place of a key is its index, from 0.
pub trait Interner<K> {
    ghost use Rattle.std.specs.Prelude.{◌≡◌, ◌+◌, ◌-◌, ◌^◌, ◌<◌, ◌≤◌, ◌↔◌, List, length, take, slice_get, IsSome};
    ghost use Rattle.std.specs.Option.{option_copied};
    ghost use Rattle.tables.specs.Keys.{AreDistinct, IsInterning};

    ghost keys: { Self → List K };

    /// The index of the key. A key that is not there yet goes to the end. It counts exactly one step.
    ///
    /// # Errors
    ///
    /// Out of memory for a new key, which is dropped. The keys are as before, and the step is counted.
    fn intern<L: Ledger>(&mut self, key: K, steps: &mut Steps<L>) -> Result<u32, NoMemory>
        requires few { length (keys self.old) < 2 ^ 31 - 1 }
        ensures interned { IsInterning (keys self.old) key (keys self.new) result }
        ensures steps { steps.new ≡ steps.old + 1 };

    /// The key with this index, or None where the index is at least the number of keys. It takes no memory.
    fn get(&self, index: u32) -> Option<&K>
        ensures value { option_copied result ≡ slice_get (keys self.now) index }
        ensures within { IsSome result ↔ (index < length (keys self.now)) };

    /// The number of keys. It takes no memory.
    fn len(&self) -> u32
        ensures len { result ≡ length (keys self.now) }
        ensures most { result < 2 ^ 31 }
        ensures distinct { AreDistinct (keys self.now) };

    /// A mark of the number of keys, for `back_to`. It takes no memory.
    fn mark(&self) -> Mark
        ensures { result ≡ length (keys self.now) };

    /// Drops the keys that came after the mark. It takes no memory.
    fn back_to(&mut self, mark: Mark)
        requires { mark ≤ length (keys self.old) }
        ensures { keys self.new ≡ take mark (keys self.old) };
}
