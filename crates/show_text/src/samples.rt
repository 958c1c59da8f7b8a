//! The lines of samples.
ghost use Rattle.std.specs.Prelude.{◌≡◌, map};
ghost use Rattle.schema.specs.Messages as messages;
ghost use Rattle.schema.specs.Shape.{Index, Links, Stacks};
ghost use Rattle.prof_rec.specs.SampleRefs.{sample_of};
ghost use Rattle.prof_rec.specs.Views.{sample_view};
ghost use Rattle.shown.specs.Direct.{meant};
ghost use Rattle.shown.specs.TextLine.{line_text, lines_text, numbered};
ghost use Rattle.shown.specs.ShowText.{sample_line, sample_lines};
ghost use Rattle.entry_text.specs.EntryTexts.{entry_text};

use dict_rec::{Attr, Link, Stack};
use entry_text::{EntryTexts, put_attributes};
use line_text::{TextOut, put_number, put_numbers};
use prof_rec::{SampleRef, Samples};

// Puts the two parts of a link, by its index.
fn put_link<'a, D: EntryTexts<'a, Link<'a>, T, O>, T, O: TextOut<T>>(
    texts: &D,
    out: &mut O,
    to: &mut T,
    index: &i32,
)
    ensures { O.Puts (out.old, to.old) (entry_text Links (meant (D.tables texts.now) (Index Links messages.link) index.now)) (out.new, to.new) }
{
    texts.put_entry(out, to, index);
}

// Puts the lines of a stack, by its index.
fn put_stack<'a, D: EntryTexts<'a, Stack, T, O>, T, O: TextOut<T>>(
    texts: &D,
    out: &mut O,
    to: &mut T,
    index: &i32,
)
    ensures { O.Puts (out.old, to.old) (entry_text Stacks (meant (D.tables texts.now) (Index Stacks messages.stack) index.now)) (out.new, to.new) }
{
    texts.put_entry(out, to, index);
}

// Puts the line of a sample.
fn put_sample_line<'a, D: EntryTexts<'a, Link<'a>, T, O>, T, O: TextOut<T>>(
    texts: &D,
    out: &mut O,
    to: &mut T,
    place: usize,
    sample: &SampleRef<'_>,
)
    ensures { O.Puts (out.old, to.old) (line_text (sample_line place (meant (D.tables texts.now) messages.sample (sample_view (sample_of sample.now))))) (out.new, to.new) }
{
    out.put(to, b"      sample ");
    put_number(out, to, &place);
    out.put(to, b" values ");
    put_numbers(out, to, sample.values);
    out.put(to, b" times ");
    put_numbers(out, to, sample.timestamps_unix_nano);
    out.put(to, b" link ");
    put_link(texts, out, to, &sample.link_index);
    out.put(to, b"\n");
}

// Puts the lines of a sample: its own, and those of its attributes and of its stack.
fn put_sample<
    'a,
    D: EntryTexts<'a, Attr<'a>, T, O>
        + EntryTexts<'a, Link<'a>, T, O>
        + EntryTexts<'a, Stack, T, O>,
    T,
    O: TextOut<T>,
>(texts: &D, out: &mut O, to: &mut T, place: usize, sample: &SampleRef<'_>)
    ensures { O.Puts (out.old, to.old) (lines_text (sample_lines place (meant (D.tables texts.now) messages.sample (sample_view (sample_of sample.now))))) (out.new, to.new) }
{
    put_sample_line(texts, out, to, place, sample);
    put_attributes(texts, out, to, 4, sample.attribute_indices);
    put_stack(texts, out, to, &sample.stack_index);
}

/// Puts the lines of samples, each with its place.
pub(crate) fn put_samples<
    'a,
    D: EntryTexts<'a, Attr<'a>, T, O>
        + EntryTexts<'a, Link<'a>, T, O>
        + EntryTexts<'a, Stack, T, O>,
    T,
    O: TextOut<T>,
>(texts: &D, out: &mut O, to: &mut T, samples: &Samples)
    ensures { O.Puts (out.old, to.old) (lines_text (numbered sample_lines 0 (map (meant (D.tables texts.now) messages.sample) (map sample_view samples.now)))) (out.new, to.new) }
{
    for place in 0..samples.len() {
        put_sample(texts, out, to, place, &samples.at(place));
    }
}
