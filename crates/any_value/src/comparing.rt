//! Comparing values: the whole of both, doubles by their bytes.
ghost use Rattle.std.specs.Prelude.{◌≡◌};
ghost use Rattle.schema.specs.AnyValue.{values_of, pairs_of};
ghost use Rattle.any_value.specs.Views.{any_view, pair_view};
ghost use Rattle.any_value.specs.Equal.{any_eq, pair_eq, values_eq, pairs_eq, views_equiv};
ghost use Rattle.std.specs.Cmp;

use crate::value::{KeyValue, KeyValues, Value, Values};

impl<'a> PartialEq for Value<'a> {
    ghost eq = { λ a b. any_eq (any_view a) (any_view b) };

    ghost laws = { Cmp.partial_equiv_from_equiv views_equiv };

    fn eq(&self, other: &Value<'a>) -> bool {
        same_value(self, other)
    }
}

impl<'a> Eq for Value<'a> {
    ghost laws = { views_equiv };
}

// Whether two values are the same.
#[cycle(comparing)]
fn same_value(one: &Value<'_>, other: &Value<'_>) -> bool
    ensures { result ≡ any_eq (any_view one.now) (any_view other.now) }
{
    match one {
        Value::Empty => matches!(other, Value::Empty),
        Value::Text(text) => match other {
            Value::Text(other) => text.as_bytes() == other.as_bytes(),
            _ => false,
        },
        Value::Flag(flag) => match other {
            Value::Flag(other) => *flag == *other,
            _ => false,
        },
        Value::Int(number) => match other {
            Value::Int(other) => *number == *other,
            _ => false,
        },
        Value::Double(bytes) => match other {
            Value::Double(other) => bytes.as_slice() == other.as_slice(),
            _ => false,
        },
        Value::Items(items) => match other {
            Value::Items(other) => same_items(items, other),
            _ => false,
        },
        Value::Pairs(pairs) => match other {
            Value::Pairs(other) => same_pairs(pairs, other),
            _ => false,
        },
        Value::Raw(bytes) => match other {
            Value::Raw(other) => bytes.as_slice() == other.as_slice(),
            _ => false,
        },
    }
}

// Whether two lists of values are the same.
#[cycle(comparing)]
fn same_items(one: &Values<'_>, other: &Values<'_>) -> bool
    ensures { result ≡ values_eq (values_of one.now) (values_of other.now) }
{
    let left = one.inner.as_slice();
    let right = other.inner.as_slice();
    if left.len() != right.len() {
        return false;
    }
    for place in 0..left.len() {
        if !same_value(&left[place], &right[place]) {
            return false;
        }
    }
    true
}

// Whether two lists of keys and values are the same.
#[cycle(comparing)]
fn same_pairs(one: &KeyValues<'_>, other: &KeyValues<'_>) -> bool
    ensures { result ≡ pairs_eq (pairs_of one.now) (pairs_of other.now) }
{
    let left = one.inner.as_slice();
    let right = other.inner.as_slice();
    if left.len() != right.len() {
        return false;
    }
    for place in 0..left.len() {
        if !same_pair(&left[place], &right[place]) {
            return false;
        }
    }
    true
}

// Whether two keys and their values are the same.
#[cycle(comparing)]
fn same_pair(one: &KeyValue<'_>, other: &KeyValue<'_>) -> bool
    ensures { result ≡ pair_eq (pair_view one.now) (pair_view other.now) }
{
    one.key.as_bytes() == other.key.as_bytes() && same_value(&one.value, &other.value)
}
