//! The records of a message.
ghost use Rattle.std.specs.Prelude.{◌≡◌};

use crate::meets::Meets;
use crate::walk::Walk;
use dict_rec::Attr;
use pb_wire::NoMemory;
use prof_rec::{Profile, ResourceProfiles, Sample, ScopeProfiles, ValueType};
use std::alloc::Global;
use std::hash::BuildHasher;
use std::sync::ledger::Ledger;
use tables::Steps;

impl Meets for ValueType {
    fn meet<'w, 'd, S: BuildHasher + Drop, L: Ledger>(
        &self,
        _alloc: Global,
        walk: &mut Walk<'w, 'd, S>,
        steps: &mut Steps<L>,
    ) -> Result<(), NoMemory> {
        walk.string(&self.type_strindex, steps)?;
        walk.string(&self.unit_strindex, steps)?;
        Ok(())
    }
}

impl Meets for Sample {
    fn meet<'w, 'd, S: BuildHasher + Drop, L: Ledger>(
        &self,
        alloc: Global,
        walk: &mut Walk<'w, 'd, S>,
        steps: &mut Steps<L>,
    ) -> Result<(), NoMemory> {
        walk.sample(
            alloc,
            &self.stack_index,
            self.attribute_indices.as_slice(),
            &self.link_index,
            steps,
        )?;
        Ok(())
    }
}

impl<'a> Meets for Profile<'a> {
    fn meet<'w, 'd, S: BuildHasher + Drop, L: Ledger>(
        &self,
        alloc: Global,
        walk: &mut Walk<'w, 'd, S>,
        steps: &mut Steps<L>,
    ) -> Result<(), NoMemory> {
        self.sample_type.meet(alloc, walk, steps)?;
        walk.samples(alloc, &self.samples, steps)?;
        self.period_type.meet(alloc, walk, steps)?;
        walk.indexes::<Attr<'d>, L>(alloc, self.attribute_indices.as_slice(), steps)?;
        Ok(())
    }
}

impl<'a> Meets for ScopeProfiles<'a> {
    fn meet<'w, 'd, S: BuildHasher + Drop, L: Ledger>(
        &self,
        alloc: Global,
        walk: &mut Walk<'w, 'd, S>,
        steps: &mut Steps<L>,
    ) -> Result<(), NoMemory> {
        walk.each(alloc, self.profiles.as_slice(), steps)?;
        Ok(())
    }
}

impl<'a> Meets for ResourceProfiles<'a> {
    fn meet<'w, 'd, S: BuildHasher + Drop, L: Ledger>(
        &self,
        alloc: Global,
        walk: &mut Walk<'w, 'd, S>,
        steps: &mut Steps<L>,
    ) -> Result<(), NoMemory> {
        walk.each(alloc, self.scope_profiles.as_slice(), steps)?;
        Ok(())
    }
}
