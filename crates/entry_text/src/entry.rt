//! Entries of tables.
ghost use Rattle.std.specs.Prelude.{◌≡◌, map};
ghost use Rattle.schema.specs.Messages.{entry, entries_in};
ghost use Rattle.schema.specs.Shape.{Table, Value, Mappings, Locations, Functions, Links, Strings, Attributes, Stacks, empty};
ghost use Rattle.pb_wire.specs.TableKinds.{table_of};
ghost use Rattle.dict_rec.specs.Views.{dictionary_view, mapping_view, location_view, function_view, link_view, attribute_view, stack_view};

use dict_rec::{Attr, Dictionary, Function, Link, Location, Mapping, Stack, TableKind};
use pb_wire::{TextRef, Wire};
use std::alloc::Global;

/// A record that is the entry of a table.
pub trait Entry<'a> {
    ghost table: { Table };

    ghost view: { Self → Value (entry table) };

    /// The kind of its table.
    fn kind() -> TableKind
        ensures { table_of result ≡ table };

    /// The entries of a dictionary.
    fn entries<'w>(dictionary: &'w Dictionary<'a>) -> &'w [Self]
        ensures { map view result.now ≡ entries_in (dictionary_view dictionary.now) table };

    /// The empty entry, which an index below 0 or past the end of the table names. It takes no memory.
    fn none(alloc: Global) -> Self
        ensures { view result ≡ empty (entry table) };
}

impl<'a> Entry<'a> for Mapping {
    ghost table = { Mappings };

    ghost view = { mapping_view };

    fn kind() -> TableKind
        ensures { table_of result ≡ Mappings }
    {
        TableKind::Mapping
    }

    fn entries<'w>(dictionary: &'w Dictionary<'a>) -> &'w [Mapping] {
        dictionary.mapping_table.as_slice()
    }

    fn none(alloc: Global) -> Mapping {
        <Mapping as Wire<'a>>::none(alloc)
    }
}

impl<'a> Entry<'a> for Location {
    ghost table = { Locations };

    ghost view = { location_view };

    fn kind() -> TableKind
        ensures { table_of result ≡ Locations }
    {
        TableKind::Location
    }

    fn entries<'w>(dictionary: &'w Dictionary<'a>) -> &'w [Location] {
        dictionary.location_table.as_slice()
    }

    fn none(alloc: Global) -> Location {
        <Location as Wire<'a>>::none(alloc)
    }
}

impl<'a> Entry<'a> for Function {
    ghost table = { Functions };

    ghost view = { function_view };

    fn kind() -> TableKind
        ensures { table_of result ≡ Functions }
    {
        TableKind::Function
    }

    fn entries<'w>(dictionary: &'w Dictionary<'a>) -> &'w [Function] {
        dictionary.function_table.as_slice()
    }

    fn none(alloc: Global) -> Function {
        <Function as Wire<'a>>::none(alloc)
    }
}

impl<'a> Entry<'a> for Link<'a> {
    ghost table = { Links };

    ghost view = { link_view };

    fn kind() -> TableKind
        ensures { table_of result ≡ Links }
    {
        TableKind::Link
    }

    fn entries<'w>(dictionary: &'w Dictionary<'a>) -> &'w [Link<'a>] {
        dictionary.link_table.as_slice()
    }

    fn none(alloc: Global) -> Link<'a> {
        <Link<'a> as Wire<'a>>::none(alloc)
    }
}

impl<'a> Entry<'a> for Attr<'a> {
    ghost table = { Attributes };

    ghost view = { attribute_view };

    fn kind() -> TableKind
        ensures { table_of result ≡ Attributes }
    {
        TableKind::Attribute
    }

    fn entries<'w>(dictionary: &'w Dictionary<'a>) -> &'w [Attr<'a>] {
        dictionary.attribute_table.as_slice()
    }

    fn none(alloc: Global) -> Attr<'a> {
        <Attr<'a> as Wire<'a>>::none(alloc)
    }
}

impl<'a> Entry<'a> for Stack {
    ghost table = { Stacks };

    ghost view = { stack_view };

    fn kind() -> TableKind
        ensures { table_of result ≡ Stacks }
    {
        TableKind::Stack
    }

    fn entries<'w>(dictionary: &'w Dictionary<'a>) -> &'w [Stack] {
        dictionary.stack_table.as_slice()
    }

    fn none(alloc: Global) -> Stack {
        <Stack as Wire<'a>>::none(alloc)
    }
}

impl<'a> Entry<'a> for TextRef<'a> {
    ghost table = { Strings };

    ghost view = { λ text. text };

    fn kind() -> TableKind
        ensures { table_of result ≡ Strings }
    {
        TableKind::String
    }

    fn entries<'w>(dictionary: &'w Dictionary<'a>) -> &'w [TextRef<'a>] {
        dictionary.string_table.as_slice()
    }

    fn none(_alloc: Global) -> TextRef<'a> {
        TextRef::empty()
    }
}
