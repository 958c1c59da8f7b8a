//! The entries of tables: what they name is met before they are.
ghost use Rattle.std.specs.Prelude.{◌≡◌};
ghost use Rattle.schema.specs.Messages.{attribute, link};
ghost use Rattle.schema.specs.Shape.{Attributes, Functions, Links, Locations, Mappings, Stacks};
ghost use Rattle.meaning.specs.Tables.{entry};
ghost use Rattle.pb_wire.specs.TableKinds.{table_of};

use crate::meets::{Entry, Meets};
use crate::walk::Walk;
use dict_rec::{Attr, Dictionary, Function, Line, Link, Location, Mapping, Stack};
use pb_wire::{NoMemory, TableKind};
use std::alloc::Global;
use std::hash::BuildHasher;
use std::sync::ledger::Ledger;
use tables::Steps;

impl Meets for Function {
    fn meet<'w, 'd, S: BuildHasher + Drop, L: Ledger>(
        &self,
        _alloc: Global,
        walk: &mut Walk<'w, 'd, S>,
        steps: &mut Steps<L>,
    ) -> Result<(), NoMemory> {
        walk.string(&self.name_strindex, steps)?;
        walk.string(&self.system_name_strindex, steps)?;
        walk.string(&self.filename_strindex, steps)?;
        Ok(())
    }
}

impl<'a> Entry<'a> for Function {
    ghost table = { Functions };

    fn kind() -> TableKind {
        TableKind::Function
    }

    fn entries<'w>(dictionary: &'w Dictionary<'a>) -> &'w [Function] {
        dictionary.function_table.as_slice()
    }
}

impl Meets for Line {
    fn meet<'w, 'd, S: BuildHasher + Drop, L: Ledger>(
        &self,
        alloc: Global,
        walk: &mut Walk<'w, 'd, S>,
        steps: &mut Steps<L>,
    ) -> Result<(), NoMemory> {
        walk.index::<Function, L>(alloc, &self.function_index, steps)?;
        Ok(())
    }
}

impl<'a> Meets for Attr<'a> {
    fn meet<'w, 'd, S: BuildHasher + Drop, L: Ledger>(
        &self,
        _alloc: Global,
        walk: &mut Walk<'w, 'd, S>,
        steps: &mut Steps<L>,
    ) -> Result<(), NoMemory> {
        walk.string(&self.key_strindex, steps)?;
        walk.string(&self.unit_strindex, steps)?;
        Ok(())
    }
}

impl<'a> Entry<'a> for Attr<'a> {
    ghost table = { Attributes };

    // In an impl with a lifetime the clauses of the trait are written out.
    fn kind() -> TableKind
        ensures kind { table_of result ≡ Attributes }
        ensures shape { attribute ≡ entry Attributes }
    {
        TableKind::Attribute
    }

    fn entries<'w>(dictionary: &'w Dictionary<'a>) -> &'w [Attr<'a>] {
        dictionary.attribute_table.as_slice()
    }
}

impl Meets for Mapping {
    fn meet<'w, 'd, S: BuildHasher + Drop, L: Ledger>(
        &self,
        alloc: Global,
        walk: &mut Walk<'w, 'd, S>,
        steps: &mut Steps<L>,
    ) -> Result<(), NoMemory> {
        walk.string(&self.filename_strindex, steps)?;
        walk.indexes::<Attr<'d>, L>(alloc, self.attribute_indices.as_slice(), steps)?;
        Ok(())
    }
}

impl<'a> Entry<'a> for Mapping {
    ghost table = { Mappings };

    fn kind() -> TableKind {
        TableKind::Mapping
    }

    fn entries<'w>(dictionary: &'w Dictionary<'a>) -> &'w [Mapping] {
        dictionary.mapping_table.as_slice()
    }
}

impl Meets for Location {
    fn meet<'w, 'd, S: BuildHasher + Drop, L: Ledger>(
        &self,
        alloc: Global,
        walk: &mut Walk<'w, 'd, S>,
        steps: &mut Steps<L>,
    ) -> Result<(), NoMemory> {
        walk.index::<Mapping, L>(alloc, &self.mapping_index, steps)?;
        walk.each(alloc, self.lines.as_slice(), steps)?;
        walk.indexes::<Attr<'d>, L>(alloc, self.attribute_indices.as_slice(), steps)?;
        Ok(())
    }
}

impl<'a> Entry<'a> for Location {
    ghost table = { Locations };

    fn kind() -> TableKind {
        TableKind::Location
    }

    fn entries<'w>(dictionary: &'w Dictionary<'a>) -> &'w [Location] {
        dictionary.location_table.as_slice()
    }
}

impl Meets for Stack {
    fn meet<'w, 'd, S: BuildHasher + Drop, L: Ledger>(
        &self,
        alloc: Global,
        walk: &mut Walk<'w, 'd, S>,
        steps: &mut Steps<L>,
    ) -> Result<(), NoMemory> {
        walk.indexes::<Location, L>(alloc, self.location_indices.as_slice(), steps)?;
        Ok(())
    }
}

impl<'a> Entry<'a> for Stack {
    ghost table = { Stacks };

    fn kind() -> TableKind {
        TableKind::Stack
    }

    fn entries<'w>(dictionary: &'w Dictionary<'a>) -> &'w [Stack] {
        dictionary.stack_table.as_slice()
    }
}

impl<'a> Meets for Link<'a> {
    fn meet<'w, 'd, S: BuildHasher + Drop, L: Ledger>(
        &self,
        _alloc: Global,
        _walk: &mut Walk<'w, 'd, S>,
        _steps: &mut Steps<L>,
    ) -> Result<(), NoMemory> {
        Ok(())
    }
}

impl<'a> Entry<'a> for Link<'a> {
    ghost table = { Links };

    // In an impl with a lifetime the clauses of the trait are written out.
    fn kind() -> TableKind
        ensures kind { table_of result ≡ Links }
        ensures shape { link ≡ entry Links }
    {
        TableKind::Link
    }

    fn entries<'w>(dictionary: &'w Dictionary<'a>) -> &'w [Link<'a>] {
        dictionary.link_table.as_slice()
    }
}
