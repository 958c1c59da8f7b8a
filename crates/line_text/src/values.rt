//! AnyValues.
ghost use Rattle.std.specs.Prelude.{◌++◌, codes, map};
ghost use Rattle.std.specs.List.{flat_map};
ghost use Rattle.schema.specs.AnyValue.{values_of, pairs_of};
ghost use Rattle.any_value.specs.Views.{any_view, pair_view};
ghost use Rattle.shown.specs.AnyText.{any_shown, values_shown, pairs_shown};
ghost use Rattle.line_text.specs.Pairs.{pair_shown};

use crate::quoting::put_hex;
use crate::{TextOut, put_bytes, put_number, put_text};
use any_value::{KeyValue, KeyValues, Value, Values};

/// Puts an AnyValue: the name of its form, and what it holds.
#[cycle(values)]
pub fn put_value<T, O: TextOut<T>>(out: &mut O, to: &mut T, value: &Value<'_>)
    ensures { O.Puts (out.old, to.old) (any_shown (any_view value.now)) (out.new, to.new) }
{
    match value {
        Value::Empty => out.put(to, b"empty"),
        Value::Text(text) => {
            out.put(to, b"text ");
            put_text(out, to, text);
        }
        Value::Flag(true) => out.put(to, b"flag true"),
        Value::Flag(false) => out.put(to, b"flag false"),
        Value::Int(number) => {
            out.put(to, b"int ");
            put_number(out, to, number);
        }
        Value::Double(bytes) => {
            out.put(to, b"double ");
            put_hex(out, to, bytes);
        }
        Value::Items(items) => {
            out.put(to, b"items [");
            put_items(out, to, items);
            out.put(to, b"]");
        }
        Value::Pairs(pairs) => {
            out.put(to, b"pairs {");
            put_pairs(out, to, pairs);
            out.put(to, b"}");
        }
        Value::Raw(bytes) => {
            out.put(to, b"bytes ");
            put_bytes(out, to, bytes);
        }
    }
}

// Puts the elements of a list, with a comma and a space between them.
#[cycle(values)]
fn put_items<T, O: TextOut<T>>(out: &mut O, to: &mut T, items: &Values<'_>)
    ensures { O.Puts (out.old, to.old) (values_shown (values_of items.now)) (out.new, to.new) }
{
    if let [first, rest @ ..] = items.as_slice() {
        put_value(out, to, first);
        put_more_items(out, to, rest);
    }
}

// Puts values, each behind a comma and a space.
#[cycle(values)]
fn put_more_items<T, O: TextOut<T>>(out: &mut O, to: &mut T, items: &[Value<'_>])
    ensures { O.Puts (out.old, to.old) (flat_map (λ v. codes ", " ++ any_shown (any_view v)) items.now) (out.new, to.new) }
{
    for item in items {
        out.put(to, b", ");
        put_value(out, to, item);
    }
}

// Puts keys and values, with a comma and a space between them.
#[cycle(values)]
fn put_pairs<T, O: TextOut<T>>(out: &mut O, to: &mut T, pairs: &KeyValues<'_>)
    ensures { O.Puts (out.old, to.old) (pairs_shown (pairs_of pairs.now)) (out.new, to.new) }
{
    if let [first, rest @ ..] = pairs.as_slice() {
        put_pair(out, to, first);
        put_more_pairs(out, to, rest);
    }
}

// Puts keys and values, each pair behind a comma and a space.
#[cycle(values)]
fn put_more_pairs<T, O: TextOut<T>>(out: &mut O, to: &mut T, pairs: &[KeyValue<'_>])
    ensures { O.Puts (out.old, to.old) (flat_map (λ p. codes ", " ++ pair_shown p) pairs.now) (out.new, to.new) }
{
    for pair in pairs {
        out.put(to, b", ");
        put_pair(out, to, pair);
    }
}

// Puts a key and its value.
#[cycle(values)]
fn put_pair<T, O: TextOut<T>>(out: &mut O, to: &mut T, pair: &KeyValue<'_>)
    ensures { O.Puts (out.old, to.old) (pair_shown pair.now) (out.new, to.new) }
{
    put_text(out, to, &pair.key);
    out.put(to, b": ");
    put_value(out, to, &pair.value);
}
