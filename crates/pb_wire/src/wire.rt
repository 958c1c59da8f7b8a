//! Messages of the schema.
ghost use Rattle.std.specs.Prelude.{◌≡◌, ◌+◌, ◌<◌, ◌≤◌, ◌^◌, ◌++◌, length, OnOk, OnErr};
ghost use Rattle.schema.specs.Field.{bytes_of};
ghost use Rattle.schema.specs.Merge.{take_field, merge, merge_all};
ghost use Rattle.schema.specs.Shape.{empty};
ghost use Rattle.schema.specs.Spell.{spell};
ghost use Rattle.schema.specs.ReadBack.{IsReadBack};
ghost use Rattle.pb_wire.specs.Answers.{Took, Reads};
ghost use Rattle.pb_wire.specs.View.{payload_view, field_view};

use crate::next::front_field;
use crate::{AsTheyStand, Blob, Field, NoMemory, Pieces, ReadFault, Rows, WireFault};
use std::alloc::Global;

/// A message of the schema that can be read from a body, whose texts and bytes it may borrow for `'a`. An implementation gives
/// one line for each row in `take`.
pub trait Wire<'a>: Rows {
    /// The message without fields. It takes no memory.
    fn none(alloc: Global) -> Self
        ensures { Self.view result ≡ empty Self.shape };

    /// Takes one more field.
    fn take(&mut self, alloc: Global, field: &Field<'a>) -> Result<(), ReadFault>
        requires inside { length (bytes_of (payload_view field.now.payload)) ≤ field.now.end }
        requires below { field.now.end < 2 ^ 63 }
        ensures { Took (Self.view self.new) result (take_field Self.shape field.now.at field.now.end (field_view field.now) (Self.view self.old)) };

    /// Takes the fields of bytes that begin at the place `base` of the file, up to their first fault.
    final fn merge(&mut self, alloc: Global, bytes: &'a [u8], base: u64) -> Result<(), ReadFault>
        requires { base + length bytes.now < 2 ^ 63 }
        ensures { Took (Self.view self.new) result (merge Self.shape (Self.view self.old) base bytes.now) }
    {
        let mut rest = bytes;
        let mut at = base;
        while !rest.is_empty() {
            let (found, after) = match front_field(rest) {
                Ok(front) => front,
                Err(reason) => {
                    return Err(ReadFault::Wire(WireFault { place: at, reason }));
                }
            };
            let end = at + (rest.len() - after.len()) as u64;
            let field = Field {
                number: found.number,
                at,
                end,
                payload: found.payload,
            };
            self.take(alloc, &field)?;
            rest = after;
            at = end;
        }
        Ok(())
    }

    /// The value of the joined occurrences of one singular message, or the first fault in written order.
    final fn read(alloc: Global, pieces: &Pieces<'a>) -> Result<Self, ReadFault>
        ensures { Reads Self.view result (merge_all Self.shape (empty Self.shape) pieces.now) }
    {
        let mut message = Self::none(alloc);
        for piece in pieces.as_slice() {
            if let Err(fault) = message.merge(alloc, piece.bytes, piece.base) {
                return Err(fault);
            }
        }
        Ok(message)
    }

    /// The length of the canonical spelling. It takes no memory.
    final fn written_len(&self) -> u64
        requires { length (spell Self.shape (Self.view self.now)) < 2 ^ 63 }
        ensures { result ≡ length (spell Self.shape (Self.view self.now)) }
    {
        self.rows_len(&AsTheyStand)
    }

    /// Puts the canonical spelling at the end, all of it or nothing. It is read as this message, wherever it begins, if no AnyValue
    /// is too deep for a file.
    final fn write(&self, out: &mut Blob) -> Result<(), NoMemory>
        requires { length (spell Self.shape (Self.view self.now)) < 2 ^ 63 }
        ensures ok { OnOk result (out.new ≡ out.old ++ spell Self.shape (Self.view self.now)) }
        ensures err { OnErr result (out.new ≡ out.old) }
        ensures back { OnOk result (IsReadBack Self.shape (Self.view self.now)) }
    {
        let begin = out.len();
        if let Err(stop) = self.put_rows(&AsTheyStand, out) {
            out.truncate(begin);
            return Err(stop);
        }
        Ok(())
    }
}
