//! The length of a text.
ghost use Rattle.std.specs.Prelude.{◌≡◌, ◌+◌, ◌-◌, ◌<◌, ◌^◌, IfOk};
ghost use Rattle.line_text.specs.Counting.{capped};

use crate::TextOut;
use crate::decimal::digits_of;
use pb_wire::NoMemory;
use std::marker::Model;

/// Counts the bytes of a text, seen as their number. The greatest that it counts to is 2^128 - 1.
#[derive(Debug, Drop)]
pub struct TextLength {
    bytes: u128,
}

impl Model for TextLength {
    ghost use Rattle.std.specs.Prelude.{ℕ};

    ghost Value = { ℕ };

    ghost view = { λ t. t.bytes };
}

impl TextLength {
    /// No bytes.
    pub fn begin() -> TextLength
        ensures { result ≡ 0 }
    {
        TextLength { bytes: 0 }
    }

    /// Counts so many bytes more.
    #[inline(always)]
    pub fn add(&mut self, bytes: u128)
        ensures { capped self.new ≡ capped (self.old + bytes) }
    {
        self.bytes = self.bytes.saturating_add(bytes);
    }

    /// The bytes that were counted.
    pub fn bytes(&self) -> u128
        ensures { result ≡ self.now }
    {
        self.bytes
    }

    /// The number of bytes, if it was counted in full. If it would be 2^128 - 1 or more, this counts as out of memory.
    pub fn exact(&self) -> Result<u128, NoMemory>
        ensures { IfOk result (λ bytes. (bytes ≡ self.now) × (bytes < 2 ^ 128 - 1)) }
    {
        if self.bytes == u128::MAX {
            return Err(NoMemory);
        }
        Ok(self.bytes)
    }
}

impl TextOut<()> for TextLength {
    ghost use Rattle.line_text.specs.Counting.{Counts, counts_are_puts};

    ghost Puts = { λ old text new. Counts old.0 text new.0 };

    ghost lawful = { counts_are_puts };

    #[inline(always)]
    fn put(&mut self, _to: &mut (), text: &[u8]) {
        self.add(text.len() as u128);
    }

    #[inline(always)]
    fn put_decimal(&mut self, _to: &mut (), number: u64) {
        self.add(digits_of(number) as u128);
    }
}
