//! The samples of a profile.
ghost use Rattle.std.specs.Prelude.{◌≡◌, ◌+◌, ◌<◌, ◌≤◌, ◌^◌, [], ◌∷◌, ◌++◌, length, map, Ok, Some, IfOk, OnOk, OnErr, OnSome, slice_get, ◌==◌};
ghost use Rattle.std.specs.Option.{option_map};
ghost use Rattle.schema.specs.Field.{bytes_of};
ghost use Rattle.schema.specs.Merge.{take_field, take_many};
ghost use Rattle.schema.specs.Messages.{sample};
ghost use Rattle.pb_wire.specs.Answers.{Took};
ghost use Rattle.pb_wire.specs.View.{payload_view};
ghost use Rattle.prof_rec.specs.Onto.{read_more};
ghost use Rattle.prof_rec.specs.SampleRefs.{sample_of};
ghost use Rattle.prof_rec.specs.Views.{sample_view};

use crate::sample_columns::SampleColumns;
use crate::{Sample, SampleRef};
use pb_wire::{Field, NoMemory, Payload, ReadFault};
use std::alloc::Global;
use std::marker::Model;
use std::mem;

/// Samples in order, seen as their list. No sample has memory of its own: each is a head of 20 bytes, and its elements are in
/// three columns, one for each kind of list. Where there are none, they take no memory.
#[derive(Debug, Drop)]
pub struct Samples {
    columns: Option<Box<SampleColumns>>,
    alloc: Global,
}

impl Model for Samples {
    ghost use Rattle.std.specs.Prelude.{List};
    ghost use Rattle.std.specs.Option.{option_map};
    ghost use Rattle.prof_rec.specs.declared.sample.Sample.{Sample};

    ghost Value = { List Sample };

    ghost use Rattle.prof_rec.specs.Columns.{or_none};

    ghost view = { λ s. or_none (option_map (λ b. b.value) s.columns) };
}

impl Samples {
    /// No samples. It takes no memory.
    pub fn begin(alloc: Global) -> Samples
        ensures { result ≡ [] }
    {
        Samples {
            columns: None,
            alloc,
        }
    }

    /// The number of samples.
    pub fn len(&self) -> usize
        ensures { result ≡ length self.now }
    {
        match &self.columns {
            None => 0,
            Some(columns) => columns.len(),
        }
    }

    /// Whether there are none.
    pub fn is_empty(&self) -> bool
        ensures { result ≡ (length self.now == 0) }
    {
        self.len() == 0
    }

    /// The sample at a place. It takes no memory.
    #[inline]
    pub fn at(&self, place: usize) -> SampleRef<'_>
        requires { place < length self.now }
        ensures { slice_get self.now place ≡ Some (sample_of result) }
    {
        match &self.columns {
            Some(columns) => columns.at(place),
            None => SampleRef {
                stack_index: 0,
                values: &[],
                attribute_indices: &[],
                link_index: 0,
                timestamps_unix_nano: &[],
            },
        }
    }

    /// The sample at a place, or None where the place is at least the length. It takes no memory.
    pub fn get(&self, place: usize) -> Option<SampleRef<'_>>
        ensures value { option_map sample_of result ≡ slice_get self.now place }
        ensures within { OnSome result (place < length self.now) }
    {
        if place < self.len() {
            Some(self.at(place))
        } else {
            None
        }
    }

    /// Adds a sample after the others. After an error they are as before. It also answers `NoMemory` where a column would have
    /// 2^32 elements, which no message that is read has.
    pub fn add(&mut self, sample: Sample) -> Result<(), NoMemory>
        ensures ok { OnOk result (self.new ≡ self.old ++ sample ∷ []) }
        ensures err { OnErr result (self.new ≡ self.old) }
    {
        let mut columns = self.take_columns()?;
        let added = columns.add(sample);
        self.columns = Some(columns);
        added
    }

    // The columns, in whose place there are none.
    fn take_columns(&mut self) -> Result<Box<SampleColumns>, NoMemory>
        ensures ok { IfOk result (λ b. b.value ≡ self.old) }
        ensures none { self.new ≡ [] }
        ensures err { OnErr result (self.old ≡ []) }
    {
        match mem::replace(&mut self.columns, None) {
            Some(columns) => Ok(columns),
            None => Ok(Box::new(self.alloc, SampleColumns::begin(self.alloc))?),
        }
    }

    /// Reads one more sample of bytes that begin at the place `base` of the file. After a fault there are no samples.
    fn read(&mut self, alloc: Global, bytes: &[u8], base: u64) -> Result<(), ReadFault>
        requires { base + length bytes.now < 2 ^ 63 }
        ensures took { Took (map sample_view self.new) result (read_more (map sample_view self.old) base bytes.now) }
        ensures none { OnErr result (self.new ≡ []) }
    {
        let mut columns = self.take_columns()?;
        let read = columns.read(alloc, bytes, base);
        self.columns = Some(columns);
        read
    }

    /// Takes a field that is one more sample, as an element of a repeated message. After a fault there are no samples.
    pub fn take(&mut self, alloc: Global, field: &Field<'_>) -> Result<(), ReadFault>
        requires inside { length (bytes_of (payload_view field.now.payload)) ≤ field.now.end }
        requires below { field.now.end < 2 ^ 63 }
        ensures took { Took (map sample_view self.new) result (take_many sample (take_field sample) field.now.at field.now.end (payload_view field.now.payload) (map sample_view self.old)) }
        ensures none { OnErr result (self.new ≡ []) }
    {
        match field.payload {
            Payload::Bytes(bytes) => self.read(alloc, bytes, field.end - bytes.len() as u64),
            _ => Ok(()),
        }
    }
}
