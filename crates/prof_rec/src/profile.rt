//! A profile.
ghost use Rattle.std.specs.Prelude.{refl};
ghost use Rattle.schema.specs.Messages.{profile};
ghost use Rattle.prof_rec.specs.Views.{profile_view};

use crate::{Samples, ValueType, put_samples, samples_len};
use pb_wire::{
    Blob, BytesRef, Field, List, NewIndexes, NoMemory, ReadFault, Rows, TableKind, TextRef, Wire,
    add_number, bytes_len, fixed_len, indexes_len, message_len, number_len, put_bytes, put_fixed,
    put_indexes, put_message, put_number, put_text, take_bytes, take_fixed, take_message,
    take_number, take_text, text_len,
};
use std::alloc::Global;

/// A profile: samples of one type.
#[derive(Debug, Drop)]
pub struct Profile<'a> {
    /// What the values of the samples are.
    pub sample_type: ValueType,
    pub samples: Samples,
    /// When the profile was collected, in nanoseconds since 1970.
    pub time_unix_nano: u64,
    /// How long it took, in nanoseconds.
    pub duration_nano: u64,
    /// What the period is.
    pub period_type: ValueType,
    /// How many units lie between two samples.
    pub period: i64,
    pub profile_id: BytesRef<'a>,
    pub dropped_attributes_count: u32,
    pub original_payload_format: TextRef<'a>,
    pub original_payload: BytesRef<'a>,
    /// Indexes into the attribute table.
    pub attribute_indices: List<i32>,
}

impl<'a> Rows for Profile<'a> {
    ghost shape = { profile };

    ghost view = { profile_view };

    ghost message = { tt };

    ghost lawful = { refl };

    fn rows_len<I: NewIndexes>(&self, indexes: &I) -> u64 {
        message_len(1, &self.sample_type, indexes)
            + samples_len(2, &self.samples, indexes)
            + fixed_len(3, self.time_unix_nano)
            + number_len(4, self.duration_nano)
            + message_len(5, &self.period_type, indexes)
            + number_len(6, self.period)
            + bytes_len(7, &self.profile_id)
            + number_len(8, self.dropped_attributes_count)
            + text_len(9, &self.original_payload_format)
            + bytes_len(10, &self.original_payload)
            + indexes_len(
                11,
                TableKind::Attribute,
                self.attribute_indices.as_slice(),
                indexes,
            )
    }

    #[tactic(auto, using(pb_wire::proofs::Prefixes::growing))]
    fn put_rows<I: NewIndexes>(&self, indexes: &I, out: &mut Blob) -> Result<(), NoMemory> {
        put_message(out, 1, &self.sample_type, indexes)?;
        put_samples(out, 2, &self.samples, indexes)?;
        put_fixed(out, 3, self.time_unix_nano)?;
        put_number(out, 4, self.duration_nano)?;
        put_message(out, 5, &self.period_type, indexes)?;
        put_number(out, 6, self.period)?;
        put_bytes(out, 7, &self.profile_id)?;
        put_number(out, 8, self.dropped_attributes_count)?;
        put_text(out, 9, &self.original_payload_format)?;
        put_bytes(out, 10, &self.original_payload)?;
        put_indexes(
            out,
            11,
            TableKind::Attribute,
            self.attribute_indices.as_slice(),
            indexes,
        )?;
        Ok(())
    }
}

impl<'a> Wire<'a> for Profile<'a> {
    fn none(alloc: Global) -> Profile<'a> {
        Profile {
            sample_type: ValueType::none(alloc),
            samples: Samples::begin(alloc),
            time_unix_nano: 0,
            duration_nano: 0,
            period_type: ValueType::none(alloc),
            period: 0,
            profile_id: BytesRef::empty(),
            dropped_attributes_count: 0,
            original_payload_format: TextRef::empty(),
            original_payload: BytesRef::empty(),
            attribute_indices: List::begin(alloc),
        }
    }

    fn take(&mut self, alloc: Global, field: &Field<'a>) -> Result<(), ReadFault> {
        match field.number {
            1 => take_message(&mut self.sample_type, alloc, field),
            2 => self.samples.take(alloc, field),
            3 => take_fixed(&mut self.time_unix_nano, field),
            4 => take_number(&mut self.duration_nano, field),
            5 => take_message(&mut self.period_type, alloc, field),
            6 => take_number(&mut self.period, field),
            7 => take_bytes(&mut self.profile_id, field),
            8 => take_number(&mut self.dropped_attributes_count, field),
            9 => take_text(&mut self.original_payload_format, field),
            10 => take_bytes(&mut self.original_payload, field),
            11 => add_number(&mut self.attribute_indices, field),
            _ => Ok(()),
        }
    }
}
