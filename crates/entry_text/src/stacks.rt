//! The texts of locations and stacks.
ghost use Rattle.std.specs.Prelude.{map};
ghost use Rattle.schema.specs.Messages.{line, location};
ghost use Rattle.schema.specs.Shape.{Index, Locations};
ghost use Rattle.dict_rec.specs.Views.{line_view};
ghost use Rattle.shown.specs.Direct.{meant};
ghost use Rattle.shown.specs.TextLine.{line_text, lines_text, numbered};
ghost use Rattle.shown.specs.ShowText.{location_lines, source_line};

use crate::attributes::put_attributes;
use crate::{EntryText, EntryTexts};
use dict_rec::{Attr, Function, Line, Location, Mapping, Stack};
use line_text::{TextOut, put_number};

impl<'a, D, T, O> EntryText<'a, D, T, O> for Location
where
    O: TextOut<T>,
    D: EntryTexts<'a, Mapping, T, O>
        + EntryTexts<'a, Function, T, O>
        + EntryTexts<'a, Attr<'a>, T, O>,
{
    fn put_text(&self, texts: &D, out: &mut O, to: &mut T) {
        out.put(to, b" address ");
        put_number(out, to, &self.address);
        out.put(to, b"\n");
        <D as EntryTexts<'a, Mapping, T, O>>::put_entry(texts, out, to, &self.mapping_index);
        put_source_lines(texts, out, to, self.lines.as_slice());
        put_attributes(texts, out, to, 5, self.attribute_indices.as_slice());
    }
}

impl<'a, D, T, O> EntryText<'a, D, T, O> for Stack
where
    O: TextOut<T>,
    D: EntryTexts<'a, Location, T, O>,
{
    fn put_text(&self, texts: &D, out: &mut O, to: &mut T) {
        put_locations(texts, out, to, self.location_indices.as_slice());
    }
}

// Puts a line of source.
fn put_source_line<'a, D: EntryTexts<'a, Function, T, O>, T, O: TextOut<T>>(
    texts: &D,
    out: &mut O,
    to: &mut T,
    source: &Line,
)
    ensures { O.Puts (out.old, to.old) (line_text (source_line (meant (D.tables texts.now) line (line_view source.now)))) (out.new, to.new) }
{
    out.put(to, b"          line ");
    put_number(out, to, &source.line);
    out.put(to, b" ");
    put_number(out, to, &source.column);
    out.put(to, b" ");
    texts.put_entry(out, to, &source.function_index);
    out.put(to, b"\n");
}

// Puts the lines of source of a location.
fn put_source_lines<'a, D: EntryTexts<'a, Function, T, O>, T, O: TextOut<T>>(
    texts: &D,
    out: &mut O,
    to: &mut T,
    lines: &[Line],
)
    ensures { O.Puts (out.old, to.old) (lines_text (map source_line (map (meant (D.tables texts.now) line) (map line_view lines.now)))) (out.new, to.new) }
{
    for source in lines {
        put_source_line(texts, out, to, source);
    }
}

// Puts the lines of a location of a stack.
fn put_location<'a, D: EntryTexts<'a, Location, T, O>, T, O: TextOut<T>>(
    texts: &D,
    out: &mut O,
    to: &mut T,
    position: usize,
    index: &i32,
)
    ensures { O.Puts (out.old, to.old) (lines_text (location_lines position (meant (D.tables texts.now) (Index Locations location) index.now))) (out.new, to.new) }
{
    out.put(to, b"        location ");
    put_number(out, to, &position);
    texts.put_entry(out, to, index);
}

// Puts the lines of locations of a stack, each with its position.
fn put_locations<'a, D: EntryTexts<'a, Location, T, O>, T, O: TextOut<T>>(
    texts: &D,
    out: &mut O,
    to: &mut T,
    indexes: &[i32],
)
    ensures { O.Puts (out.old, to.old) (lines_text (numbered location_lines 0 (map (meant (D.tables texts.now) (Index Locations location)) (map (λ i. i) indexes.now)))) (out.new, to.new) }
{
    for position in 0..indexes.len() {
        put_location(texts, out, to, position, &indexes[position]);
    }
}
