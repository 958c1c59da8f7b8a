//! What is done to samples in columns: `heads` has a head for each, and the lists of `all` are the columns. A sample that is read
//! onto `all` is at their ends.
ghost use Rattle.std.specs.Prelude.{◌≡◌, ◌+◌, ◌<◌, ◌≤◌, ◌^◌, [], ◌∷◌, ◌++◌, length, take, map, Ok, Some, OnOk, OnErr, slice_get, slice_range};
ghost use Rattle.pb_wire.specs.Answers.{Took};
ghost use Rattle.prof_rec.specs.Columns.{HasColumns, IsParted, last_head, samples_in, with_elements};
ghost use Rattle.prof_rec.specs.Onto.{read_more};
ghost use Rattle.prof_rec.specs.SampleRefs.{sample_of};
ghost use Rattle.prof_rec.specs.Views.{sample_view};

use crate::head::{Head, end_of, head_at, head_before};
use crate::{Sample, SampleRef};
use pb_wire::{List, NoMemory, ReadFault, Wire};
use std::alloc::Global;

// The part of a column from one end to the next.
#[inline(always)]
fn part<T>(column: &List<T>, from: u32, to: u32) -> &[T]
    requires ascend { from ≤ to }
    requires inside { to ≤ length column.now }
    ensures { result.now ≡ slice_range column.now from to }
{
    &column.as_slice()[from as usize..to as usize]
}

/// The sample at a place.
#[inline]
pub(crate) fn sample_at<'a>(heads: &[Head], all: &'a Sample, place: usize) -> SampleRef<'a>
    requires parted { IsParted heads.now all.now }
    requires inside { place < length heads.now }
    ensures { slice_get (samples_in heads.now all.now) place ≡ Some (sample_of result) }
{
    let before = head_before(heads, place);
    let head = head_at(heads, place);
    SampleRef {
        stack_index: head.stack_index,
        values: part(&all.values, before.values_end, head.values_end),
        attribute_indices: part(
            &all.attribute_indices,
            before.attributes_end,
            head.attributes_end,
        ),
        link_index: head.link_index,
        timestamps_unix_nano: part(&all.timestamps_unix_nano, before.times_end, head.times_end),
    }
}

/// Ends the sample that is at the ends of the columns. After an error the heads are as before.
fn end_sample(heads: &mut List<Head>, all: &Sample) -> Result<(), NoMemory>
    ensures ok { OnOk result (heads.new ≡ heads.old ++ last_head all.now ∷ []) }
    ensures err { OnErr result (heads.new ≡ heads.old) }
{
    let values_end = end_of(all.values.len())?;
    let attributes_end = end_of(all.attribute_indices.len())?;
    let times_end = end_of(all.timestamps_unix_nano.len())?;
    heads.add(Head {
        stack_index: all.stack_index,
        link_index: all.link_index,
        values_end,
        attributes_end,
        times_end,
    })?;
    Ok(())
}

/// Reads one more sample of bytes that begin at the place `base` of the file. After a fault nothing is known of
/// the heads and the columns.
pub(crate) fn read_sample(
    heads: &mut List<Head>,
    all: &mut Sample,
    alloc: Global,
    bytes: &[u8],
    base: u64,
) -> Result<(), ReadFault>
    requires below { base + length bytes.now < 2 ^ 63 }
    requires parted { IsParted heads.old all.old }
    ensures parted { OnOk result (IsParted heads.new all.new) }
    ensures read { Took (map sample_view (samples_in heads.new all.new)) result (read_more (map sample_view (samples_in heads.old all.old)) base bytes.now) }
{
    all.stack_index = 0;
    all.link_index = 0;
    all.merge(alloc, bytes, base)?;
    end_sample(heads, all)?;
    Ok(())
}

// Puts the elements of a sample at the ends of the columns, and its indexes. After an error some may be there.
fn put_elements(all: &mut Sample, sample: &Sample) -> Result<(), NoMemory>
    ensures ok { OnOk result (all.new ≡ with_elements all.old sample.now) }
    ensures err { OnErr result (HasColumns all.old all.new) }
{
    all.stack_index = sample.stack_index;
    all.link_index = sample.link_index;
    all.values.append(sample.values.as_slice())?;
    all.attribute_indices
        .append(sample.attribute_indices.as_slice())?;
    all.timestamps_unix_nano
        .append(sample.timestamps_unix_nano.as_slice())?;
    Ok(())
}

// Puts a sample at the ends of the columns. After an error the heads are as before, and some of its elements may be there.
fn put_sample(heads: &mut List<Head>, all: &mut Sample, sample: &Sample) -> Result<(), NoMemory>
    ensures heads { OnOk result (heads.new ≡ heads.old ++ last_head all.new ∷ []) }
    ensures ok { OnOk result (all.new ≡ with_elements all.old sample.now) }
    ensures kept { OnErr result (heads.new ≡ heads.old) }
    ensures err { OnErr result (HasColumns all.old all.new) }
{
    put_elements(all, sample)?;
    end_sample(heads, all)?;
    Ok(())
}

/// Adds a sample. After an error the samples are as before.
pub(crate) fn add_sample(
    heads: &mut List<Head>,
    all: &mut Sample,
    sample: &Sample,
) -> Result<(), NoMemory>
    requires { IsParted heads.old all.old }
    ensures parted { IsParted heads.new all.new }
    ensures ok { OnOk result (samples_in heads.new all.new ≡ samples_in heads.old all.old ++ sample.now ∷ []) }
    ensures err { OnErr result (samples_in heads.new all.new ≡ samples_in heads.old all.old) }
{
    let values = all.values.len();
    let attributes = all.attribute_indices.len();
    let times = all.timestamps_unix_nano.len();
    if let Err(stop) = put_sample(heads, all, sample) {
        all.values.truncate(values);
        all.attribute_indices.truncate(attributes);
        all.timestamps_unix_nano.truncate(times);
        return Err(stop);
    }
    Ok(())
}
