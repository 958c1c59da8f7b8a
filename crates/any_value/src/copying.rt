//! Copies of values.
ghost use Rattle.std.specs.Prelude.{◌≡◌, ◌++◌, ◌∷◌, [], OnOk, IfOk};
ghost use Rattle.any_value.specs.Views.{any_view, pair_view};

use crate::value::{KeyValue, KeyValues, Value, Values};
use pb_wire::NoMemory;
use std::alloc::Global;

impl<'a> Value<'a> {
    /// An equal value, which borrows from the same body.
    pub fn duplicate(&self, alloc: Global) -> Result<Value<'a>, NoMemory>
        ensures { IfOk result (λ v. any_view v ≡ any_view self.now) }
    {
        copy_value(self, alloc)
    }
}

// A copy of a value.
#[cycle(copying)]
fn copy_value<'a>(value: &Value<'a>, alloc: Global) -> Result<Value<'a>, NoMemory>
    ensures { IfOk result (λ v. any_view v ≡ any_view value.now) }
{
    match value {
        Value::Empty => Ok(Value::Empty),
        Value::Text(text) => Ok(Value::Text(text.again())),
        Value::Flag(flag) => Ok(Value::Flag(*flag)),
        Value::Int(number) => Ok(Value::Int(*number)),
        Value::Double(bytes) => Ok(Value::Double(*bytes)),
        Value::Items(items) => Ok(Value::Items(copy_items(items, alloc)?)),
        Value::Pairs(pairs) => Ok(Value::Pairs(copy_pairs(pairs, alloc)?)),
        Value::Raw(bytes) => Ok(Value::Raw(bytes.again())),
    }
}

// A copy of a list of values.
#[cycle(copying)]
fn copy_items<'a>(items: &Values<'a>, alloc: Global) -> Result<Values<'a>, NoMemory>
    ensures { IfOk result (λ copy. copy ≡ items.now) }
{
    let mut copy = Values::begin(alloc);
    for item in &items.inner {
        if let Err(stop) = add_item_copy(&mut copy, item, alloc) {
            return Err(stop);
        }
    }
    Ok(copy)
}

// Puts a copy of a value at the end.
#[cycle(copying)]
fn add_item_copy<'a>(
    items: &mut Values<'a>,
    item: &Value<'a>,
    alloc: Global,
) -> Result<(), NoMemory>
    ensures { OnOk result (items.new ≡ items.old ++ any_view item.now ∷ []) }
{
    items.add(copy_value(item, alloc)?)?;
    Ok(())
}

// A copy of a list of keys and values.
#[cycle(copying)]
fn copy_pairs<'a>(pairs: &KeyValues<'a>, alloc: Global) -> Result<KeyValues<'a>, NoMemory>
    ensures { IfOk result (λ copy. copy ≡ pairs.now) }
{
    let mut copy = KeyValues::begin(alloc);
    for pair in &pairs.inner {
        if let Err(stop) = add_pair_copy(&mut copy, pair, alloc) {
            return Err(stop);
        }
    }
    Ok(copy)
}

// Puts a copy of a key and its value at the end.
#[cycle(copying)]
fn add_pair_copy<'a>(
    pairs: &mut KeyValues<'a>,
    pair: &KeyValue<'a>,
    alloc: Global,
) -> Result<(), NoMemory>
    ensures { OnOk result (pairs.new ≡ pairs.old ++ pair_view pair.now ∷ []) }
{
    let key = pair.key.again();
    let value = copy_value(&pair.value, alloc)?;
    pairs.add(KeyValue { key, value })?;
    Ok(())
}
