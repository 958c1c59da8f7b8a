//! The lines of scope records and resource records.
ghost use Rattle.std.specs.Prelude.{map};
ghost use Rattle.schema.specs.Messages.{scope_profiles, resource_profiles};
ghost use Rattle.prof_rec.specs.Views.{scope_profiles_view, resource_profiles_view};
ghost use Rattle.shown.specs.Direct.{meant};
ghost use Rattle.shown.specs.TextLine.{line_text, lines_text, numbered};
ghost use Rattle.shown.specs.ShowText.{scope_line, scope_lines, resource_line, resource_lines, show_of};

use crate::profiles::put_profiles;
use crate::values::{put_entities, put_key_values};
use dict_rec::{Attr, Link, Stack};
use entry_text::{EntryTexts, Meanings};
use line_text::{TextOut, put_number, put_text};
use pb_wire::TextRef;
use prof_rec::{ResourceProfiles, ScopeProfiles};

// Puts the line of a scope record.
fn put_scope_line<D: Meanings, T, O: TextOut<T>>(
    texts: &D,
    out: &mut O,
    to: &mut T,
    place: usize,
    record: &ScopeProfiles<'_>,
)
    ensures { O.Puts (out.old, to.old) (line_text (scope_line place (meant (D.tables texts.now) scope_profiles (scope_profiles_view «record».now)))) (out.new, to.new) }
{
    out.put(to, b"  scope ");
    put_number(out, to, &place);
    out.put(to, b" name ");
    put_text(out, to, &record.scope.name);
    out.put(to, b" version ");
    put_text(out, to, &record.scope.version);
    out.put(to, b" dropped ");
    put_number(out, to, &record.scope.dropped_attributes_count);
    out.put(to, b" schema ");
    put_text(out, to, &record.schema_url);
    out.put(to, b"\n");
}

// Puts the lines of a scope record: its own, and those of the attributes of its scope and of its profiles.
fn put_scope<
    'a,
    D: EntryTexts<'a, TextRef<'a>, T, O>
        + EntryTexts<'a, Attr<'a>, T, O>
        + EntryTexts<'a, Link<'a>, T, O>
        + EntryTexts<'a, Stack, T, O>,
    T,
    O: TextOut<T>,
>(texts: &D, out: &mut O, to: &mut T, place: usize, record: &ScopeProfiles<'_>)
    ensures { O.Puts (out.old, to.old) (lines_text (scope_lines place (meant (D.tables texts.now) scope_profiles (scope_profiles_view «record».now)))) (out.new, to.new) }
{
    put_scope_line(texts, out, to, place, record);
    put_key_values(out, to, 2, record.scope.attributes.as_slice());
    put_profiles(texts, out, to, record.profiles.as_slice());
}

// Puts the lines of scope records, each with its place.
fn put_scopes<
    'a,
    D: EntryTexts<'a, TextRef<'a>, T, O>
        + EntryTexts<'a, Attr<'a>, T, O>
        + EntryTexts<'a, Link<'a>, T, O>
        + EntryTexts<'a, Stack, T, O>,
    T,
    O: TextOut<T>,
>(texts: &D, out: &mut O, to: &mut T, records: &[ScopeProfiles<'_>])
    ensures { O.Puts (out.old, to.old) (lines_text (numbered scope_lines 0 (map (meant (D.tables texts.now) scope_profiles) (map scope_profiles_view records.now)))) (out.new, to.new) }
{
    let mut place = 0;
    for record in records {
        put_scope(texts, out, to, place, record);
        place += 1;
    }
}

// Puts the line of a resource record.
fn put_resource_line<D: Meanings, T, O: TextOut<T>>(
    texts: &D,
    out: &mut O,
    to: &mut T,
    place: usize,
    record: &ResourceProfiles<'_>,
)
    ensures { O.Puts (out.old, to.old) (line_text (resource_line place (meant (D.tables texts.now) resource_profiles (resource_profiles_view «record».now)))) (out.new, to.new) }
{
    out.put(to, b"resource ");
    put_number(out, to, &place);
    out.put(to, b" dropped ");
    put_number(out, to, &record.resource.dropped_attributes_count);
    out.put(to, b" schema ");
    put_text(out, to, &record.schema_url);
    out.put(to, b"\n");
}

// Puts the lines of a resource record: its own, and those of the attributes and the opaque elements of its resource and of its
// scope records.
fn put_resource<
    'a,
    D: EntryTexts<'a, TextRef<'a>, T, O>
        + EntryTexts<'a, Attr<'a>, T, O>
        + EntryTexts<'a, Link<'a>, T, O>
        + EntryTexts<'a, Stack, T, O>,
    T,
    O: TextOut<T>,
>(texts: &D, out: &mut O, to: &mut T, place: usize, record: &ResourceProfiles<'_>)
    ensures { O.Puts (out.old, to.old) (lines_text (resource_lines place (meant (D.tables texts.now) resource_profiles (resource_profiles_view «record».now)))) (out.new, to.new) }
{
    put_resource_line(texts, out, to, place, record);
    put_key_values(out, to, 1, record.resource.attributes.as_slice());
    put_entities(out, to, record.resource.opaque.as_slice());
    put_scopes(texts, out, to, record.scope_profiles.as_slice());
}

/// Puts the text of resource records: their lines, each with its place.
pub fn put_records<
    'a,
    D: EntryTexts<'a, TextRef<'a>, T, O>
        + EntryTexts<'a, Attr<'a>, T, O>
        + EntryTexts<'a, Link<'a>, T, O>
        + EntryTexts<'a, Stack, T, O>,
    T,
    O: TextOut<T>,
>(texts: &D, out: &mut O, to: &mut T, records: &[ResourceProfiles<'_>])
    ensures { O.Puts (out.old, to.old) (show_of (map (meant (D.tables texts.now) resource_profiles) (map resource_profiles_view records.now))) (out.new, to.new) }
{
    let mut place = 0;
    for record in records {
        put_resource(texts, out, to, place, record);
        place += 1;
    }
}
