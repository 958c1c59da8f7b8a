//! The lists in a value.
ghost use Rattle.std.specs.Prelude.{◌≡◌, ◌++◌, ◌∷◌, [], ◌<◌, OnOk, OnErr, OnSome, length, map, slice_get};
ghost use Rattle.std.specs.Option.{option_copied, option_map};
ghost use Rattle.any_value.specs.Views.{any_view, pair_view};

use crate::lengths::{below_limit, item_len, keyed_len};
use crate::value::{KeyValue, KeyValues, Value, Values};
use pb_wire::NoMemory;
use std::alloc::Global;

impl<'a> Values<'a> {
    /// No values. It takes no memory.
    pub fn begin(alloc: Global) -> Values<'a>
        ensures { result ≡ [] }
    {
        Values {
            inner: Vec::new(alloc),
            bytes: 0,
        }
    }

    /// Puts a value at the end. When out of memory, the list is as before and the value is dropped. The same if the list
    /// would have a canonical spelling of 2^60 bytes or more.
    pub fn add(&mut self, element: Value<'a>) -> Result<(), NoMemory>
        ensures ok { OnOk result (self.new ≡ self.old ++ any_view element.entry ∷ []) }
        ensures err { OnErr result (self.new ≡ self.old) }
    {
        let bytes = below_limit(self.bytes + item_len(&element)?)?;
        self.inner.push(element)?;
        self.bytes = bytes;
        Ok(())
    }

    /// The value at a place, or None where the place is at least the length. It takes no memory.
    pub fn get(&self, place: usize) -> Option<&Value<'a>>
        ensures value { option_map any_view (option_copied result) ≡ slice_get self.now place }
        ensures within { OnSome result (place < length self.now) }
    {
        self.inner.get(place)
    }

    /// The values in order. It takes no memory.
    pub fn as_slice(&self) -> &[Value<'a>]
        ensures { map any_view result.now ≡ self.now }
    {
        &self.inner
    }
}

impl<'a> KeyValues<'a> {
    /// No keys and values. It takes no memory.
    pub fn begin(alloc: Global) -> KeyValues<'a>
        ensures { result ≡ [] }
    {
        KeyValues {
            inner: Vec::new(alloc),
            bytes: 0,
        }
    }

    /// Puts a key and its value at the end. When out of memory, the list is as before and the element is dropped. The
    /// same if the list would have a canonical spelling of 2^60 bytes or more.
    pub fn add(&mut self, element: KeyValue<'a>) -> Result<(), NoMemory>
        ensures ok { OnOk result (self.new ≡ self.old ++ pair_view element.entry ∷ []) }
        ensures err { OnErr result (self.new ≡ self.old) }
    {
        let bytes = below_limit(self.bytes + keyed_len(&element)?)?;
        self.inner.push(element)?;
        self.bytes = bytes;
        Ok(())
    }

    /// The key and value at a place, or None where the place is at least the length. It takes no memory.
    pub fn get(&self, place: usize) -> Option<&KeyValue<'a>>
        ensures value { option_map pair_view (option_copied result) ≡ slice_get self.now place }
        ensures within { OnSome result (place < length self.now) }
    {
        self.inner.get(place)
    }

    /// The keys and values in order. It takes no memory.
    pub fn as_slice(&self) -> &[KeyValue<'a>]
        ensures { map pair_view result.now ≡ self.now }
    {
        &self.inner
    }
}
