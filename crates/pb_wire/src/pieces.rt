//! The occurrences of one singular message.
ghost use Rattle.std.specs.Prelude.{◌≡◌, ◌++◌, ◌∷◌, [], ◌+◌, ◌<◌, ◌^◌, OnOk, OnErr, length, slice_get, map, All};
ghost use Rattle.std.specs.Option.{option_map};
ghost use Rattle.pb_wire.specs.Parts.{part_view};

use crate::NoMemory;
use std::alloc::Global;
use std::marker::Model;

/// Bytes of a message, and where they begin in the file.
#[derive(Clone, Copy)]
pub struct Piece<'a> {
    pub bytes: &'a [u8],
    pub base: u64,
}

/// The occurrences of one singular message in order, seen as the list of their bytes and places.
#[derive(Drop)]
pub struct Pieces<'a> {
    items: Vec<Piece<'a>>,
}

impl<'a> Model for Pieces<'a> {
    ghost use Rattle.std.specs.Prelude.{List, map, All, ◌+◌, ◌<◌, ◌^◌, length};
    ghost use Rattle.schema.specs.Parts.{Part};
    ghost use Rattle.pb_wire.specs.Parts.{part_view};

    ghost Value = { List Part };

    ghost view = { λ p. map part_view p.items.items };

    ghost invariant = { λ p. All (λ q. q.base + length q.bytes.now < 2 ^ 63) p.items.items };
}

impl<'a> Pieces<'a> {
    /// No pieces. It takes no memory.
    pub fn begin(alloc: Global) -> Pieces<'a>
        ensures { result ≡ [] }
    {
        Pieces {
            items: Vec::new(alloc),
        }
    }

    /// Puts a piece at the end. When out of memory, the list is as before.
    pub fn add(&mut self, piece: Piece<'a>) -> Result<(), NoMemory>
        requires { piece.base + length piece.bytes.now < 2 ^ 63 }
        ensures ok { OnOk result (self.new ≡ self.old ++ part_view piece.entry ∷ []) }
        ensures err { OnErr result (self.new ≡ self.old) }
    {
        self.items.push(piece)?;
        Ok(())
    }

    /// The piece at a place, or None where the place is at least the length. It takes no memory.
    pub fn get(&self, place: usize) -> Option<Piece<'a>>
        ensures { option_map part_view result ≡ slice_get self.now place }
    {
        self.items.get(place).copied()
    }

    /// The pieces in order. It takes no memory.
    pub fn as_slice(&self) -> &[Piece<'a>]
        ensures items { map part_view result.now ≡ self.now }
        ensures below { All (λ p. p.base + length p.bytes.now < 2 ^ 63) result.now }
    {
        &self.items
    }
}
