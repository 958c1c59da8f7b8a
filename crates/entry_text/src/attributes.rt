//! Texts of strings and attributes by their indexes.
ghost use Rattle.std.specs.Prelude.{◌≤◌, map};
ghost use Rattle.schema.specs.Messages.{attribute};
ghost use Rattle.schema.specs.Shape.{Index, Strings, Attributes, Text};
ghost use Rattle.shown.specs.Direct.{meant};
ghost use Rattle.shown.specs.Quoted.{quoted};
ghost use Rattle.shown.specs.TextLine.{line_text, lines_text};
ghost use Rattle.shown.specs.ShowText.{attribute_line};

use crate::EntryTexts;
use dict_rec::Attr;
use line_text::{TextOut, put_indent};
use pb_wire::TextRef;

/// Puts a string of the string table in quotes.
pub fn put_string<'a, D: EntryTexts<'a, TextRef<'a>, T, O>, T, O: TextOut<T>>(
    texts: &D,
    out: &mut O,
    to: &mut T,
    index: &i32,
)
    ensures { O.Puts (out.old, to.old) (quoted (meant (D.tables texts.now) (Index Strings Text) index.now)) (out.new, to.new) }
{
    texts.put_entry(out, to, index);
}

// Puts the line of an attribute.
fn put_attribute<'a, D: EntryTexts<'a, Attr<'a>, T, O>, T, O: TextOut<T>>(
    texts: &D,
    out: &mut O,
    to: &mut T,
    level: u32,
    index: &i32,
)
    requires { level ≤ 6 }
    ensures { O.Puts (out.old, to.old) (line_text (attribute_line level (meant (D.tables texts.now) (Index Attributes attribute) index.now))) (out.new, to.new) }
{
    put_indent(out, to, level);
    texts.put_entry(out, to, index);
}

/// Puts the lines of attributes, each two spaces further in for each level.
pub fn put_attributes<'a, D: EntryTexts<'a, Attr<'a>, T, O>, T, O: TextOut<T>>(
    texts: &D,
    out: &mut O,
    to: &mut T,
    level: u32,
    indexes: &[i32],
)
    requires { level ≤ 6 }
    ensures { O.Puts (out.old, to.old) (lines_text (map (attribute_line level) (map (meant (D.tables texts.now) (Index Attributes attribute)) (map (λ i. i) indexes.now)))) (out.new, to.new) }
{
    for index in indexes {
        put_attribute(texts, out, to, level, index);
    }
}
