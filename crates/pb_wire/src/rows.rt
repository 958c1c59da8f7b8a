//! The rows of messages, written.
ghost use Rattle.std.specs.Prelude.{◌≡◌, ◌<◌, ◌^◌, true, OnOk, OnErr};
ghost use Rattle.schema.specs.Fits.{is_lawful};
ghost use Rattle.schema.specs.Moved.{moved};
ghost use Rattle.schema.specs.Shape.{Shape, Value, IsMessage};
ghost use Rattle.schema.specs.Spell.{spell_onto, len_onto};
ghost use Rattle.schema.specs.Typed.{IsTyped};
ghost use Rattle.schema.specs.Prefix.{IsPrefix};

use crate::{Blob, NewIndexes, NoMemory};

/// A message of the schema that can be written. An implementation gives its shape, its view as a value of that shape, and one
/// line for each row in `rows_len` and `put_rows`. A row of indexes is written by `index_len` and `put_index`, or `indexes_len`
/// and `put_indexes`. `Wire` reads it.
pub trait Rows: Drop {
    ghost shape: { Shape };

    ghost view: { Self → Value shape };

    /// The length of the rows' canonical spelling with new indexes, in bytes. It takes no memory.
    fn rows_len<I: NewIndexes>(&self, indexes: &I) -> u64
        requires { len_onto shape 0 (moved (I.to indexes.now) shape (view self.now)) < 2 ^ 63 }
        ensures { result ≡ len_onto shape 0 (moved (I.to indexes.now) shape (view self.now)) };

    /// Puts the rows' canonical spelling with new indexes at the end. Numbers are then known in their range and texts as UTF-8,
    /// since each was read. After an error, which says out of memory, the bytes so far are still in front.
    fn put_rows<I: NewIndexes>(&self, indexes: &I, out: &mut Blob) -> Result<(), NoMemory>
        requires { len_onto shape 0 (moved (I.to indexes.now) shape (view self.now)) < 2 ^ 63 }
        ensures ok { OnOk result (out.new ≡ spell_onto shape out.old (moved (I.to indexes.now) shape (view self.now))) }
        ensures err { OnErr result (IsPrefix out.old out.new) }
        ensures typed { OnOk result (IsTyped shape (view self.now)) };

    /// The shape is that of a message.
    ghost message: { IsMessage shape };

    /// The field numbers of the rows are distinct, and each is one that a tag can hold.
    ghost lawful: { is_lawful shape ≡ true };
}
