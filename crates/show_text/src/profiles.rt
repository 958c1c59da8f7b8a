//! The lines of profiles.
ghost use Rattle.std.specs.Prelude.{map};
ghost use Rattle.schema.specs.Messages as messages;
ghost use Rattle.prof_rec.specs.Views.{value_type_view, profile_view};
ghost use Rattle.shown.specs.Direct.{meant};
ghost use Rattle.shown.specs.TextLine.{line_text, lines_text, numbered};
ghost use Rattle.shown.specs.ShowText.{type_text, profile_line, profile_lines};
ghost use Rattle.show_text.specs.ProfileLine.{profile_front, profile_back};

use crate::samples::put_samples;
use dict_rec::{Attr, Link, Stack};
use entry_text::{EntryTexts, put_attributes, put_string};
use line_text::{TextOut, put_bytes, put_number, put_text};
use pb_wire::TextRef;
use prof_rec::{Profile, ValueType};

// Puts a type and its unit.
fn put_type<'a, D: EntryTexts<'a, TextRef<'a>, T, O>, T, O: TextOut<T>>(
    texts: &D,
    out: &mut O,
    to: &mut T,
    kind: &ValueType,
)
    ensures { O.Puts (out.old, to.old) (type_text (meant (D.tables texts.now) messages.value_type (value_type_view kind.now))) (out.new, to.new) }
{
    put_string(texts, out, to, &kind.type_strindex);
    out.put(to, b"/");
    put_string(texts, out, to, &kind.unit_strindex);
}

// Puts the front of the line of a profile: its place, its types and its period.
fn put_profile_front<'a, D: EntryTexts<'a, TextRef<'a>, T, O>, T, O: TextOut<T>>(
    texts: &D,
    out: &mut O,
    to: &mut T,
    place: usize,
    profile: &Profile<'_>,
)
    ensures { O.Puts (out.old, to.old) (profile_front place (meant (D.tables texts.now) messages.profile (profile_view profile.now))) (out.new, to.new) }
{
    out.put(to, b"    profile ");
    put_number(out, to, &place);
    out.put(to, b" type ");
    put_type(texts, out, to, &profile.sample_type);
    out.put(to, b" period ");
    put_type(texts, out, to, &profile.period_type);
    out.put(to, b" ");
    put_number(out, to, &profile.period);
}

// Puts the rest of the line.
fn put_profile_back<'a, D: EntryTexts<'a, TextRef<'a>, T, O>, T, O: TextOut<T>>(
    texts: &D,
    out: &mut O,
    to: &mut T,
    profile: &Profile<'_>,
)
    ensures { O.Puts (out.old, to.old) (profile_back (meant (D.tables texts.now) messages.profile (profile_view profile.now))) (out.new, to.new) }
{
    out.put(to, b" time ");
    put_number(out, to, &profile.time_unix_nano);
    out.put(to, b" duration ");
    put_number(out, to, &profile.duration_nano);
    out.put(to, b" id ");
    put_bytes(out, to, &profile.profile_id);
    out.put(to, b" dropped ");
    put_number(out, to, &profile.dropped_attributes_count);
    out.put(to, b" format ");
    put_text(out, to, &profile.original_payload_format);
    out.put(to, b" payload ");
    put_bytes(out, to, &profile.original_payload);
    out.put(to, b"\n");
}

/// Puts the lines of a profile: its own, and those of its attributes and of its samples.
pub(crate) fn put_profile<
    'a,
    D: EntryTexts<'a, TextRef<'a>, T, O>
        + EntryTexts<'a, Attr<'a>, T, O>
        + EntryTexts<'a, Link<'a>, T, O>
        + EntryTexts<'a, Stack, T, O>,
    T,
    O: TextOut<T>,
>(texts: &D, out: &mut O, to: &mut T, place: usize, profile: &Profile<'_>)
    ensures { O.Puts (out.old, to.old) (lines_text (profile_lines place (meant (D.tables texts.now) messages.profile (profile_view profile.now)))) (out.new, to.new) }
{
    put_profile_front(texts, out, to, place, profile);
    put_profile_back(texts, out, to, profile);
    put_attributes(texts, out, to, 3, profile.attribute_indices.as_slice());
    put_samples(texts, out, to, &profile.samples);
}

/// Puts the lines of profiles, each with its place.
pub(crate) fn put_profiles<
    'a,
    D: EntryTexts<'a, TextRef<'a>, T, O>
        + EntryTexts<'a, Attr<'a>, T, O>
        + EntryTexts<'a, Link<'a>, T, O>
        + EntryTexts<'a, Stack, T, O>,
    T,
    O: TextOut<T>,
>(texts: &D, out: &mut O, to: &mut T, profiles: &[Profile<'_>])
    ensures { O.Puts (out.old, to.old) (lines_text (numbered profile_lines 0 (map (meant (D.tables texts.now) messages.profile) (map profile_view profiles.now)))) (out.new, to.new) }
{
    let mut place = 0;
    for profile in profiles {
        put_profile(texts, out, to, place, profile);
        place += 1;
    }
}
