//! A sample that is seen in the columns of a profile.
ghost use Rattle.std.specs.Prelude.{◌≡◌, ◌<◌, ◌^◌, ◌++◌, length, OnOk, OnErr};
ghost use Rattle.schema.specs.Messages.{sample};
ghost use Rattle.schema.specs.Moved.{moved};
ghost use Rattle.schema.specs.Spell.{len_onto, spell_onto};
ghost use Rattle.schema.specs.Typed.{IsTyped};
ghost use Rattle.schema.specs.Prefix.{IsPrefix};
ghost use Rattle.prof_rec.specs.SampleRefs.{sample_of};
ghost use Rattle.prof_rec.specs.Views.{sample_view};

use pb_wire::{
    Blob, NewIndexes, NoMemory, TableKind, fixed_list_len, index_len, indexes_len, numbers_len,
    put_fixed_list, put_index, put_indexes, put_numbers,
};

/// A sample, whose lists are parts of others.
#[derive(Clone, Copy, Debug)]
pub struct SampleRef<'a> {
    /// An index into the stack table.
    pub stack_index: i32,
    /// What was measured, in the unit of the profile's sample type.
    pub values: &'a [i64],
    /// Indexes into the attribute table.
    pub attribute_indices: &'a [i32],
    /// An index into the link table.
    pub link_index: i32,
    /// When it was measured, in nanoseconds since 1970.
    pub timestamps_unix_nano: &'a [u64],
}

impl SampleRef<'_> {
    /// The length of the rows' canonical spelling with new indexes, in bytes. It takes no memory.
    pub fn rows_len<I: NewIndexes>(&self, indexes: &I) -> u64
        requires { len_onto sample 0 (moved (I.to indexes.now) sample (sample_view (sample_of self.now))) < 2 ^ 63 }
        ensures { result ≡ len_onto sample 0 (moved (I.to indexes.now) sample (sample_view (sample_of self.now))) }
    {
        index_len(1, TableKind::Stack, &self.stack_index, indexes)
            + numbers_len(2, self.values)
            + indexes_len(3, TableKind::Attribute, self.attribute_indices, indexes)
            + index_len(4, TableKind::Link, &self.link_index, indexes)
            + fixed_list_len(5, self.timestamps_unix_nano)
    }

    /// Puts the rows' canonical spelling with new indexes at the end. After an error, which says out of memory, the bytes so far
    /// are still in front.
    #[tactic(auto, using(pb_wire::proofs::Prefixes::growing))]
    pub fn put_rows<I: NewIndexes>(&self, indexes: &I, out: &mut Blob) -> Result<(), NoMemory>
        requires { len_onto sample 0 (moved (I.to indexes.now) sample (sample_view (sample_of self.now))) < 2 ^ 63 }
        ensures ok { OnOk result (out.new ≡ spell_onto sample out.old (moved (I.to indexes.now) sample (sample_view (sample_of self.now)))) }
        ensures err { OnErr result (IsPrefix out.old out.new) }
        ensures typed { OnOk result (IsTyped sample (sample_view (sample_of self.now))) }
    {
        put_index(out, 1, TableKind::Stack, &self.stack_index, indexes)?;
        put_numbers(out, 2, self.values)?;
        put_indexes(
            out,
            3,
            TableKind::Attribute,
            self.attribute_indices,
            indexes,
        )?;
        put_index(out, 4, TableKind::Link, &self.link_index, indexes)?;
        put_fixed_list(out, 5, self.timestamps_unix_nano)?;
        Ok(())
    }
}
