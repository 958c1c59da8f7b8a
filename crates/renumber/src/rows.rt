//! Repeated rows of indexes and of records, and a sample.
ghost use Rattle.std.specs.Prelude.{◌≡◌, ℕ, ℤ, List, map, OnOk};
ghost use Rattle.schema.specs.Each.{Each};
ghost use Rattle.schema.specs.Messages.{sample};
ghost use Rattle.schema.specs.Shape.{Attributes, Links, Stacks};
ghost use Rattle.prof_rec.specs.Views.{sample_view};
ghost use Rattle.renumber.specs.Entries.{IsPart, index_into};
ghost use Rattle.renumber.specs.Walk.{Moves, Walked, WalkedEach, missed};

use crate::meets::{Entry, Meets};
use crate::walk::Walk;
use dict_rec::{Attr, Link, Stack};
use pb_wire::NoMemory;
use prof_rec::Samples;
use std::alloc::Global;
use std::hash::BuildHasher;
use std::sync::ledger::Ledger;
use tables::Steps;

impl<'w, 'a, S: BuildHasher + Drop> Walk<'w, 'a, S> {
    /// Makes the indexes of a repeated field known.
    ///
    /// # Errors
    ///
    /// Out of memory.
    pub fn indexes<E: Entry<'a> + 'w, L: Ledger>(
        &mut self,
        alloc: Global,
        indexes: &[i32],
        steps: &mut Steps<L>,
    ) -> Result<(), NoMemory>
        requires { Each (IsPart (index_into E.table) self.old.source) (map (λ i. i) indexes.now) }
        ensures moves { Moves (index_into E.table) (missed result) self.old self.new steps.old steps.new }
        ensures walked { OnOk result (WalkedEach (index_into E.table) self.old self.new (map (λ i. i) indexes.now)) }
    {
        for index in indexes {
            if let Err(stop) = self.index::<E, L>(alloc, index, steps) {
                return Err(stop);
            }
        }
        Ok(())
    }

    /// Makes the indexes of the elements of a repeated field known.
    ///
    /// # Errors
    ///
    /// Out of memory.
    pub fn each<T: Meets, L: Ledger>(
        &mut self,
        alloc: Global,
        items: &[T],
        steps: &mut Steps<L>,
    ) -> Result<(), NoMemory>
        requires { Each (IsPart T.shape self.old.source) (map T.view items.now) }
        ensures moves { Moves T.shape (missed result) self.old self.new steps.old steps.new }
        ensures walked { OnOk result (WalkedEach T.shape self.old self.new (map T.view items.now)) }
    {
        for item in items {
            if let Err(stop) = item.meet(alloc, self, steps) {
                return Err(stop);
            }
        }
        Ok(())
    }

    /// Makes the indexes of samples known, one after the other.
    ///
    /// # Errors
    ///
    /// Out of memory.
    pub fn samples<L: Ledger>(
        &mut self,
        alloc: Global,
        samples: &Samples,
        steps: &mut Steps<L>,
    ) -> Result<(), NoMemory>
        requires { Each (IsPart sample self.old.source) (map sample_view samples.now) }
        ensures moves { Moves sample (missed result) self.old self.new steps.old steps.new }
        ensures walked { OnOk result (WalkedEach sample self.old self.new (map sample_view samples.now)) }
    {
        for place in 0..samples.len() {
            let found = samples.at(place);
            if let Err(stop) = self.sample(
                alloc,
                &found.stack_index,
                found.attribute_indices,
                &found.link_index,
                steps,
            ) {
                return Err(stop);
            }
        }
        Ok(())
    }

    /// Makes the indexes of a sample known: its stack, its attributes and its link, in this order.
    ///
    /// # Errors
    ///
    /// Out of memory.
    pub fn sample<L: Ledger>(
        &mut self,
        alloc: Global,
        stack_index: &i32,
        attribute_indices: &[i32],
        link_index: &i32,
        steps: &mut Steps<L>,
    ) -> Result<(), NoMemory>
        requires stack { IsPart (index_into Stacks) self.old.source stack_index.now }
        requires attributes { Each (IsPart (index_into Attributes) self.old.source) (map (λ i. i) attribute_indices.now) }
        requires link { IsPart (index_into Links) self.old.source link_index.now }
        ensures moves { Moves sample (missed result) self.old self.new steps.old steps.new }
        ensures walked { OnOk result ((values : List ℤ) (times : List ℕ) → Walked sample self.old self.new (stack_index.now, (values, (map (λ i. i) attribute_indices.now, (link_index.now, (times, tt)))))) }
    {
        self.index::<Stack, L>(alloc, stack_index, steps)?;
        self.indexes::<Attr<'a>, L>(alloc, attribute_indices, steps)?;
        self.index::<Link<'a>, L>(alloc, link_index, steps)?;
        Ok(())
    }
}
