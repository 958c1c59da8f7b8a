//! The lines of attributes and opaque elements that hold no index.
ghost use Rattle.std.specs.Prelude.{◌≤◌, map};
ghost use Rattle.schema.specs.Messages.{key_value};
ghost use Rattle.schema.specs.Shape.{Bytes};
ghost use Rattle.meaning.specs.Tables.{Tables};
ghost use Rattle.any_value.specs.Views.{attribute_view};
ghost use Rattle.shown.specs.Direct.{meant};
ghost use Rattle.shown.specs.TextLine.{line_text, lines_text};
ghost use Rattle.shown.specs.ShowText.{key_value_line, entity_line};

use any_value::KeyValue;
use line_text::{TextOut, put_bytes, put_indent, put_text, put_value};
use pb_wire::BytesRef;

// Puts the line of a key and its value.
fn put_key_value<T, O: TextOut<T>>(out: &mut O, to: &mut T, level: u32, pair: &KeyValue<'_>)
    requires { level ≤ 6 }
    ensures { O.Puts (out.old, to.old) (line_text (key_value_line level (attribute_view pair.now))) (out.new, to.new) }
{
    put_indent(out, to, level);
    out.put(to, b"attr ");
    put_text(out, to, &pair.key);
    out.put(to, b" ");
    put_value(out, to, &pair.value);
    out.put(to, b"\n");
}

/// Puts the lines of the attributes of a resource or a scope, whose keys are in place.
pub(crate) fn put_key_values<T, O: TextOut<T>>(
    out: &mut O,
    to: &mut T,
    level: u32,
    pairs: &[KeyValue<'_>],
)
    requires { level ≤ 6 }
    ensures { (d : Tables) → O.Puts (out.old, to.old) (lines_text (map (key_value_line level) (map (meant d (key_value 1)) (map attribute_view pairs.now)))) (out.new, to.new) }
{
    for pair in pairs {
        put_key_value(out, to, level, pair);
    }
}

// Puts the line of an opaque element.
fn put_entity<T, O: TextOut<T>>(out: &mut O, to: &mut T, element: &BytesRef<'_>)
    ensures { O.Puts (out.old, to.old) (line_text (entity_line element.now)) (out.new, to.new) }
{
    out.put(to, b"  entity ");
    put_bytes(out, to, element);
    out.put(to, b"\n");
}

/// Puts the lines of the opaque elements of a resource.
pub(crate) fn put_entities<T, O: TextOut<T>>(out: &mut O, to: &mut T, elements: &[BytesRef<'_>])
    ensures { (d : Tables) → O.Puts (out.old, to.old) (lines_text (map entity_line (map (meant d Bytes) elements.now))) (out.new, to.new) }
{
    for element in elements {
        put_entity(out, to, element);
    }
}
