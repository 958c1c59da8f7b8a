//! The columns of samples.
ghost use Rattle.std.specs.Prelude.{◌≡◌, ◌+◌, ◌<◌, ◌≤◌, ◌^◌, [], ◌∷◌, ◌++◌, length, map, Ok, Some, OnOk, OnErr, OnSome, slice_get, ◌==◌};
ghost use Rattle.std.specs.Option.{option_map};
ghost use Rattle.schema.specs.Field.{bytes_of};
ghost use Rattle.schema.specs.Merge.{take_field, take_many};
ghost use Rattle.schema.specs.Messages.{sample};
ghost use Rattle.pb_wire.specs.Answers.{Took};
ghost use Rattle.pb_wire.specs.View.{payload_view};
ghost use Rattle.prof_rec.specs.Onto.{read_more};
ghost use Rattle.prof_rec.specs.SampleRefs.{sample_of};
ghost use Rattle.prof_rec.specs.Views.{sample_view};

use crate::columns::{add_sample, read_sample, sample_at};
use crate::head::Head;
use crate::{Sample, SampleRef};
use pb_wire::{Field, List, NoMemory, Payload, ReadFault};
use std::alloc::Global;
use std::marker::Model;

/// Samples in order, seen as their list: a head of 20 bytes for each, and three columns, one for each kind of list, in which their
/// elements are.
#[derive(Debug, Drop)]
pub(crate) struct SampleColumns {
    heads: List<Head>,
    // The lists of all samples, one after the other; its indexes are those of the sample that came last.
    all: Sample,
}

impl Model for SampleColumns {
    ghost use Rattle.std.specs.Prelude.{List};
    ghost use Rattle.prof_rec.specs.declared.sample.Sample.{Sample};

    ghost Value = { List Sample };

    ghost use Rattle.prof_rec.specs.Columns.{IsParted, samples_in};

    ghost view = { λ s. samples_in s.heads s.all };

    ghost invariant = { λ s. IsParted s.heads s.all };
}

impl SampleColumns {
    /// No samples. It takes no memory.
    pub(crate) fn begin(alloc: Global) -> SampleColumns
        ensures { result ≡ [] }
    {
        SampleColumns {
            heads: List::begin(alloc),
            all: Sample {
                stack_index: 0,
                values: List::begin(alloc),
                attribute_indices: List::begin(alloc),
                link_index: 0,
                timestamps_unix_nano: List::begin(alloc),
            },
        }
    }

    /// The number of samples.
    pub(crate) fn len(&self) -> usize
        ensures { result ≡ length self.now }
    {
        self.heads.len()
    }

    /// The sample at a place. It takes no memory.
    #[inline]
    pub(crate) fn at(&self, place: usize) -> SampleRef<'_>
        requires { place < length self.now }
        ensures { slice_get self.now place ≡ Some (sample_of result) }
    {
        sample_at(self.heads.as_slice(), &self.all, place)
    }

    /// Adds a sample after the others. After an error they are as before. It also answers `NoMemory` where a column would have
    /// 2^32 elements, which no message that is read has.
    pub(crate) fn add(&mut self, sample: Sample) -> Result<(), NoMemory>
        ensures ok { OnOk result (self.new ≡ self.old ++ sample ∷ []) }
        ensures err { OnErr result (self.new ≡ self.old) }
    {
        add_sample(&mut self.heads, &mut self.all, &sample)?;
        Ok(())
    }

    /// Reads one more sample of bytes that begin at the place `base` of the file. After a fault there are no samples.
    pub(crate) fn read(&mut self, alloc: Global, bytes: &[u8], base: u64) -> Result<(), ReadFault>
        requires { base + length bytes.now < 2 ^ 63 }
        ensures took { Took (map sample_view self.new) result (read_more (map sample_view self.old) base bytes.now) }
        ensures none { OnErr result (self.new ≡ []) }
    {
        if let Err(fault) = read_sample(&mut self.heads, &mut self.all, alloc, bytes, base) {
            *self = SampleColumns::begin(alloc);
            return Err(fault);
        }
        Ok(())
    }
}
