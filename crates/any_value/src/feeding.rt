//! What a value feeds a hasher.
ghost use Rattle.std.specs.Prelude.{◌≡◌, ◌++◌, fold};
ghost use Rattle.std.specs.Hash as fed;
ghost use Rattle.schema.specs.AnyValue.{values_of, pairs_of};
ghost use Rattle.any_value.specs.Hashing.{any_writes, bytes_writes, values_writes, pairs_writes, same_writes};
ghost use Rattle.any_value.specs.Views.{any_view};

use crate::value::{KeyValue, KeyValues, Value, Values};
use std::hash::{Hash, Hasher};

impl<'a> Hash for Value<'a> {
    ghost hash_input = { λ v. any_writes (any_view v) };

    ghost respects_eq = { same_writes };

    fn hash<H: Hasher>(&self, state: &mut H) {
        feed_value(self, state);
    }
}

// Feeds a value.
#[cycle(feeding)]
fn feed_value<H: Hasher>(value: &Value<'_>, state: &mut H)
    ensures { state.new ≡ fold H.write state.old (any_writes (any_view value.now)) }
{
    match value {
        Value::Empty => state.write_u8(0),
        Value::Text(text) => {
            state.write_u8(1);
            text.as_bytes().hash(state);
        }
        Value::Flag(flag) => {
            state.write_u8(2);
            flag.hash(state);
        }
        Value::Int(number) => {
            state.write_u8(3);
            number.hash(state);
        }
        Value::Double(bytes) => {
            state.write_u8(4);
            bytes.as_slice().hash(state);
        }
        Value::Items(items) => {
            state.write_u8(5);
            feed_items(items, state);
        }
        Value::Pairs(pairs) => {
            state.write_u8(6);
            feed_pairs(pairs, state);
        }
        Value::Raw(bytes) => {
            state.write_u8(7);
            bytes.as_slice().hash(state);
        }
    }
}

// Feeds the elements of a list of values.
#[cycle(feeding)]
fn feed_items<H: Hasher>(items: &Values<'_>, state: &mut H)
    ensures { state.new ≡ fold H.write state.old (values_writes (values_of items.now)) }
{
    for item in &items.inner {
        state.write_u8(1);
        feed_value(item, state);
    }
    state.write_u8(0);
}

// Feeds the elements of a list of keys and values.
#[cycle(feeding)]
fn feed_pairs<H: Hasher>(pairs: &KeyValues<'_>, state: &mut H)
    ensures { state.new ≡ fold H.write state.old (pairs_writes (pairs_of pairs.now)) }
{
    for pair in &pairs.inner {
        feed_pair(pair, state);
    }
    state.write_u8(0);
}

// Feeds an element of a list of keys and values.
#[cycle(feeding)]
fn feed_pair<H: Hasher>(pair: &KeyValue<'_>, state: &mut H)
    ensures { state.new ≡ fold H.write state.old ((fed.u8 1 ++ bytes_writes pair.now.key) ++ any_writes (any_view pair.now.value)) }
{
    state.write_u8(1);
    pair.key.as_bytes().hash(state);
    feed_value(&pair.value, state);
}
