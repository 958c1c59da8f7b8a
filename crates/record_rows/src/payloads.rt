//! The payloads of a case: bytes, and where they begin in the file.
ghost use Rattle.std.specs.Prelude.{◌^◌, ◌<◌, length, IfOk};
ghost use Rattle.schema.specs.Each.{Each};
ghost use Rattle.record_rows.specs.Short.{IsShort};

use crate::fault::CaseFault;
use pb_wire::{NoMemory, Piece, Pieces};
use row_text::{RowFault, bytes_of, text_of};
use std::alloc::{AllocError, Global};

/// Bytes, and where they begin in the file.
#[derive(Drop)]
pub struct Payload {
    pub base: u32,
    pub bytes: Vec<u8>,
    ghost few: { length bytes.items < 2 ^ 32 },
}

impl Payload {
    /// The payload of a word: `PLACE:BYTES`, or `BYTES`, which begin at 0.
    pub fn of(alloc: Global, word: &str) -> Result<Payload, CaseFault> {
        let (base, digits) = word.split_once(':').unwrap_or(("0", word));
        let base = base.parse()?;
        let bytes = bytes_of_word(alloc, digits)?;
        if bytes.len() as u64 > u32::MAX as u64 {
            return Err(CaseFault::Place);
        }
        Ok(Payload { base, bytes })
    }

    /// The payload as a piece.
    pub fn piece(&self) -> Piece<'_>
        ensures base { result.base < 2 ^ 32 }
        ensures few { length result.bytes.now < 2 ^ 32 }
        ensures octets { Each (λ b. b < 256) result.bytes.now }
    {
        piece_of(self.base, self.bytes.as_slice())
    }
}

// The piece of these bytes.
fn piece_of(base: u32, bytes: &[u8]) -> Piece<'_>
    requires { length bytes.now < 2 ^ 32 }
    ensures base { result.base < 2 ^ 32 }
    ensures few { length result.bytes.now < 2 ^ 32 }
    ensures octets { Each (λ b. b < 256) result.bytes.now }
{
    Piece {
        bytes,
        base: base as u64,
    }
}

/// The payloads of one singular message, of which the last ones may be empty.
#[derive(Drop)]
pub struct Payloads {
    first: Payload,
    second: Payload,
    third: Payload,
}

impl Payloads {
    /// The payloads of at most three words.
    pub fn of(alloc: Global, data: &str) -> Result<Payloads, CaseFault> {
        let mut words = data.split_whitespace();
        let payloads = Payloads {
            first: Payload::of(alloc, words.next().unwrap_or("nothing"))?,
            second: Payload::of(alloc, words.next().unwrap_or("nothing"))?,
            third: Payload::of(alloc, words.next().unwrap_or("nothing"))?,
        };
        match words.next() {
            Some(_) => Err(CaseFault::Extra),
            None => Ok(payloads),
        }
    }

    /// The payloads as pieces.
    pub fn pieces(&self, alloc: Global) -> Result<Pieces<'_>, NoMemory>
        ensures { IfOk result (λ pieces. IsShort pieces) }
    {
        let mut pieces = Pieces::begin(alloc);
        pieces.add(self.first.piece())?;
        pieces.add(self.second.piece())?;
        pieces.add(self.third.piece())?;
        Ok(pieces)
    }
}

/// The bytes of a word, in the notation of rows, or `nothing`.
pub fn bytes_of_word(alloc: Global, word: &str) -> Result<Vec<u8>, RowFault> {
    bytes_of(alloc, if word == "nothing" { "" } else { word })
}

/// Bytes in the notation of rows, or `nothing`.
pub fn shown(alloc: Global, bytes: &[u8]) -> Result<String, AllocError> {
    if bytes.is_empty() {
        return String::from_str(alloc, "nothing");
    }
    text_of(alloc, bytes)
}
