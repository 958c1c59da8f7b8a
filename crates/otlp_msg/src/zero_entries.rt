//! The first entries of the tables.
ghost use Rattle.std.specs.Prelude.{◌≡◌, ◌<◌, ◌^◌, length, map};
ghost use Rattle.schema.specs.Each.{Each};
ghost use Rattle.schema.specs.Fits.{Fits};
ghost use Rattle.schema.specs.Messages.{dictionary};
ghost use Rattle.schema.specs.Shape.{Text as TextShape};
ghost use Rattle.schema.specs.Spell.{spell};
ghost use Rattle.dict_rec.specs.Views.{dictionary_view};
ghost use Rattle.otlp_msg.specs.Within.{HasPlaces};
ghost use Rattle.otlp_msg.specs.ZeroEntries.{all_tables, begins_with_zero as begins_with_zero_of, first_other};

use dict_rec::{Dictionary, TableKind};
use pb_wire::{AsTheyStand, List, Rows, TextRef};

/// The first table, in the order of the dictionary's fields, whose first entry isn't the zero value. It takes no memory.
pub(crate) fn first_other_zero(tables: &Dictionary<'_>) -> Option<TableKind>
    requires fits { Fits dictionary (dictionary_view tables.now) }
    requires short { HasPlaces dictionary (dictionary_view tables.now) }
    ensures { result ≡ first_other (dictionary_view tables.now) all_tables }
{
    if !begins_with_zero(&tables.mapping_table) {
        return Some(TableKind::Mapping);
    }
    if !begins_with_zero(&tables.location_table) {
        return Some(TableKind::Location);
    }
    if !begins_with_zero(&tables.function_table) {
        return Some(TableKind::Function);
    }
    if !begins_with_zero(&tables.link_table) {
        return Some(TableKind::Link);
    }
    if !begins_with_empty(&tables.string_table) {
        return Some(TableKind::String);
    }
    if !begins_with_zero(&tables.attribute_table) {
        return Some(TableKind::Attribute);
    }
    if !begins_with_zero(&tables.stack_table) {
        return Some(TableKind::Stack);
    }
    None
}

// Whether the first entry, if there is one, is the zero value, whose spelling alone is empty.
fn begins_with_zero<T: Rows>(entries: &List<T>) -> bool
    requires { Each (λ x. Fits T.shape x × (length (spell T.shape x) < 2 ^ 32)) (map T.view entries.now) }
    ensures { result ≡ begins_with_zero_of T.shape (map T.view entries.now) }
{
    match entries.get(0) {
        Some(first) => first.rows_len(&AsTheyStand) == 0,
        None => true,
    }
}

// Whether the first text, if there is one, is empty.
fn begins_with_empty(texts: &List<TextRef<'_>>) -> bool
    ensures { result ≡ begins_with_zero_of TextShape texts.now }
{
    match texts.get(0) {
        Some(first) => first.as_str().is_empty(),
        None => true,
    }
}
