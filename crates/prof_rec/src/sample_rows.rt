//! The row of a profile's samples: its length in bytes, and writing it with new indexes.
ghost use Rattle.std.specs.Prelude.{◌≡◌, ◌+◌, ◌*◌, ◌<◌, ◌^◌, ◌++◌, length, map, OnOk, OnErr};
ghost use Rattle.schema.specs.Each.{Each};
ghost use Rattle.schema.specs.Messages.{sample};
ghost use Rattle.schema.specs.Moved.{moved};
ghost use Rattle.schema.specs.Spell.{len_onto, spell};
ghost use Rattle.schema.specs.Texts.{items_text, long_field};
ghost use Rattle.schema.specs.Typed.{IsTyped};
ghost use Rattle.schema.specs.Prefix.{IsPrefix};
ghost use Rattle.prof_rec.specs.SampleRefs.{sample_of};
ghost use Rattle.prof_rec.specs.Views.{sample_view};

use crate::{SampleRef, Samples};
use pb_wire::{Blob, NewIndexes, NoMemory, long_len, put_head};

/// The length of the row of repeated samples. It takes no memory.
#[tactic(auto, using(schema_laws::proofs::Onto::long_len, schema_laws::proofs::Onto::onto_len, pb_wire::proofs::RowTexts::items_moved))]
pub fn samples_len<I: NewIndexes>(number: u32, samples: &Samples, indexes: &I) -> u64
    requires below { number < 2 ^ 29 }
    requires room { length (items_text number (map (spell sample) (map (moved (I.to indexes.now) sample) (map sample_view samples.now)))) < 2 ^ 63 }
    ensures { result ≡ length (items_text number (map (spell sample) (map (moved (I.to indexes.now) sample) (map sample_view samples.now)))) }
{
    let mut len = 0;
    for place in 0..samples.len() {
        let item = samples.at(place);
        len += long_len(number, item.rows_len(indexes));
    }
    len
}

// Puts a sample, whose length is known, after its tag and length.
#[tactic(auto, using(pb_wire::proofs::Prefixes::growing, schema_laws::proofs::Onto::long_onto, schema_laws::proofs::Onto::onto, schema_laws::proofs::Onto::onto_len))]
fn put_measured<I: NewIndexes>(
    out: &mut Blob,
    number: u32,
    len: u64,
    item: &SampleRef<'_>,
    indexes: &I,
) -> Result<(), NoMemory>
    requires below { number < 2 ^ 29 }
    requires same { len ≡ len_onto sample 0 (moved (I.to indexes.now) sample (sample_view (sample_of item.now))) }
    requires room { len < 2 ^ 63 }
    ensures ok { OnOk result (out.new ≡ out.old ++ long_field number (spell sample (moved (I.to indexes.now) sample (sample_view (sample_of item.now))))) }
    ensures err { OnErr result (IsPrefix out.old out.new) }
    ensures typed { OnOk result (IsTyped sample (sample_view (sample_of item.now))) }
{
    put_head(out, number, len)?;
    item.put_rows(indexes, out)?;
    Ok(())
}

// Puts a sample after its tag and length. A byte is kept for the length, which is put once the rows are there. A sample that is
// longer is written again.
#[tactic(auto, using(pb_wire::proofs::Prefixes::growing))]
fn put_unmeasured<I: NewIndexes>(
    out: &mut Blob,
    number: u32,
    item: &SampleRef<'_>,
    indexes: &I,
) -> Result<(), NoMemory>
    requires below { number < 2 ^ 29 }
    requires room { len_onto sample 0 (moved (I.to indexes.now) sample (sample_view (sample_of item.now))) < 2 ^ 63 }
    ensures ok { OnOk result (out.new ≡ out.old ++ long_field number (spell sample (moved (I.to indexes.now) sample (sample_view (sample_of item.now))))) }
    ensures err { OnErr result (IsPrefix out.old out.new) }
    ensures typed { OnOk result (IsTyped sample (sample_view (sample_of item.now))) }
{
    let begin = out.len();
    put_head(out, number, 0)?;
    let at = out.len();
    item.put_rows(indexes, out)?;
    let len = out.len() - at;
    if len < 128 {
        out.set(at - 1, len as u8);
        return Ok(());
    }
    out.truncate(begin);
    put_measured(out, number, len as u64, item, indexes)?;
    Ok(())
}

// Whether a sample has so few elements that its length takes one byte. No contract depends on it.
#[inline(always)]
fn is_short(item: &SampleRef<'_>) -> bool {
    item.values.len() < 4 && item.attribute_indices.len() < 4 && item.timestamps_unix_nano.len() < 4
}

// Puts a sample after its tag and length. A short one isn't measured.
#[inline(always)]
fn put_one<I: NewIndexes>(
    out: &mut Blob,
    number: u32,
    item: &SampleRef<'_>,
    indexes: &I,
) -> Result<(), NoMemory>
    requires below { number < 2 ^ 29 }
    requires room { len_onto sample 0 (moved (I.to indexes.now) sample (sample_view (sample_of item.now))) < 2 ^ 63 }
    ensures ok { OnOk result (out.new ≡ out.old ++ long_field number (spell sample (moved (I.to indexes.now) sample (sample_view (sample_of item.now))))) }
    ensures err { OnErr result (IsPrefix out.old out.new) }
    ensures typed { OnOk result (IsTyped sample (sample_view (sample_of item.now))) }
{
    if is_short(item) {
        put_unmeasured(out, number, item, indexes)
    } else {
        put_measured(out, number, item.rows_len(indexes), item, indexes)
    }
}

/// Puts each sample after its own tag and length, also an empty one. After an error a part of the row may be at the end.
#[tactic(auto, using(pb_wire::proofs::Prefixes::growing))]
pub fn put_samples<I: NewIndexes>(
    out: &mut Blob,
    number: u32,
    samples: &Samples,
    indexes: &I,
) -> Result<(), NoMemory>
    requires below { number < 2 ^ 29 }
    requires room { length (items_text number (map (spell sample) (map (moved (I.to indexes.now) sample) (map sample_view samples.now)))) < 2 ^ 63 }
    ensures ok { OnOk result (out.new ≡ out.old ++ items_text number (map (spell sample) (map (moved (I.to indexes.now) sample) (map sample_view samples.now)))) }
    ensures err { OnErr result (IsPrefix out.old out.new) }
    ensures typed { OnOk result (Each (IsTyped sample) (map sample_view samples.now)) }
{
    for place in 0..samples.len() {
        let item = samples.at(place);
        if let Err(stop) = put_one(out, number, &item, indexes) {
            return Err(stop);
        }
    }
    Ok(())
}
