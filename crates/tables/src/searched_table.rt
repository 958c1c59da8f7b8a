//! A table that is searched from the front.
ghost use Rattle.std.specs.Prelude.{◌≡◌, [], position};

use crate::{Interner, Key, Mark, Steps};
use pb_wire::NoMemory;
use std::alloc::Global;
use std::marker::Model;
use std::sync::ledger::Ledger;

/// A table that looks for a key from the front on, seen as the list of its keys. It is the definition as a plain
/// program, against which `Table` can be tried. With many keys it is slow.
#[derive(Drop)]
pub struct SearchedTable<K> {
    items: Vec<K>,
}

impl<K> Model for SearchedTable<K> {
    ghost use Rattle.std.specs.Prelude.{List};
    ghost use Rattle.tables.specs.Keys.{AreTableKeys};

    ghost Value = { List K };

    ghost view = { λ t. t.items.items };

    ghost invariant = { λ t. AreTableKeys t.items.items };
}

impl<K> SearchedTable<K> {
    /// No keys. It takes no memory.
    pub fn begin(alloc: Global) -> SearchedTable<K>
        ensures { result ≡ [] }
    {
        SearchedTable {
            items: Vec::new(alloc),
        }
    }
}

impl<K: Key + Drop> Interner<K> for SearchedTable<K> {
    ghost keys = { λ t. t };

    fn intern<L: Ledger>(&mut self, key: K, steps: &mut Steps<L>) -> Result<u32, NoMemory> {
        steps.tick();
        if let Some(place) = place_of(&self.items, &key) {
            return Ok(place as u32);
        }
        let place = self.items.len() as u32;
        self.items.push(key)?;
        Ok(place)
    }

    fn get(&self, index: u32) -> Option<&K> {
        self.items.get(index as usize)
    }

    fn len(&self) -> u32 {
        self.items.len() as u32
    }

    fn mark(&self) -> Mark {
        Mark::at(self.items.len() as u32)
    }

    fn back_to(&mut self, mark: Mark) {
        self.items.truncate(mark.len() as usize);
    }
}

// The first place of the key, or None.
fn place_of<K: Key>(items: &[K], key: &K) -> Option<usize>
    ensures { result ≡ position (K.eq key.now) items.now }
{
    items.iter().position(|held| key == held)
}
