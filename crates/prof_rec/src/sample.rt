//! A sample of a profile.
ghost use Rattle.std.specs.Prelude.{◌≡◌, refl};
ghost use Rattle.schema.specs.Messages.{sample};
ghost use Rattle.prof_rec.specs.SampleRefs.{sample_of};
ghost use Rattle.prof_rec.specs.Views.{sample_view};

use crate::SampleRef;
use pb_wire::{
    Blob, Field, List, NewIndexes, NoMemory, ReadFault, Rows, Wire, add_fixed, add_number,
    take_number,
};
use std::alloc::Global;

/// A sample of a profile: a stack, and what was measured there.
#[derive(Debug, Drop)]
pub struct Sample {
    /// An index into the stack table.
    pub stack_index: i32,
    /// What was measured, in the unit of the profile's sample type.
    pub values: List<i64>,
    /// Indexes into the attribute table.
    pub attribute_indices: List<i32>,
    /// An index into the link table.
    pub link_index: i32,
    /// When it was measured, in nanoseconds since 1970.
    pub timestamps_unix_nano: List<u64>,
}

impl Rows for Sample {
    ghost shape = { sample };

    ghost view = { sample_view };

    ghost message = { tt };

    ghost lawful = { refl };

    fn rows_len<I: NewIndexes>(&self, indexes: &I) -> u64 {
        self.parts().rows_len(indexes)
    }

    fn put_rows<I: NewIndexes>(&self, indexes: &I, out: &mut Blob) -> Result<(), NoMemory> {
        self.parts().put_rows(indexes, out)
    }
}

impl<'a> Wire<'a> for Sample {
    fn none(alloc: Global) -> Sample {
        Sample {
            stack_index: 0,
            values: List::begin(alloc),
            attribute_indices: List::begin(alloc),
            link_index: 0,
            timestamps_unix_nano: List::begin(alloc),
        }
    }

    #[inline(always)]
    fn take(&mut self, _alloc: Global, field: &Field<'a>) -> Result<(), ReadFault> {
        match field.number {
            1 => take_number(&mut self.stack_index, field),
            2 => add_number(&mut self.values, field),
            3 => add_number(&mut self.attribute_indices, field),
            4 => take_number(&mut self.link_index, field),
            5 => add_fixed(&mut self.timestamps_unix_nano, field),
            _ => Ok(()),
        }
    }
}

impl Sample {
    /// The sample with its lists as slices. It takes no memory.
    pub fn parts(&self) -> SampleRef<'_>
        ensures { sample_of result ≡ self.now }
    {
        SampleRef {
            stack_index: self.stack_index,
            values: self.values.as_slice(),
            attribute_indices: self.attribute_indices.as_slice(),
            link_index: self.link_index,
            timestamps_unix_nano: self.timestamps_unix_nano.as_slice(),
        }
    }
}
