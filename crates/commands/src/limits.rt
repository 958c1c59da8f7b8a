//! The limit of `split`.
ghost use Rattle.std.specs.Prelude.{◌≡◌, ◌<◌, ◌≤◌, ◌==◌, slice_index};
ghost use Rattle.commands.specs.Limits.{if_limit, limit_in, most_bytes};

use std::marker::Model;

// No message has more bytes.
const MOST_BYTES: u64 = 33_554_432;

const MOST_DIGITS: usize = 8;

/// How many bytes a part may have: from 1 to 33,554,432. It is seen as their number.
#[derive(Clone, Copy, Debug, PartialEq, Eq)]
pub struct PartLimit {
    bytes: u64,
}

impl Model for PartLimit {
    ghost use Rattle.std.specs.Prelude.{ℕ, ◌<◌, ◌≤◌};
    ghost use Rattle.commands.specs.Limits.{most_bytes};

    ghost Value = { ℕ };

    ghost view = { λ l. l.bytes };

    ghost inverse = { λ n. record { bytes = n } };

    ghost invariant = { λ l. (0 < l.bytes) × (l.bytes ≤ most_bytes) };
}

impl PartLimit {
    /// The limit that a word writes in one to eight decimal digits. It is None where the word is none, or is out of range.
    pub fn of_word(word: &str) -> Option<PartLimit>
        ensures { result ≡ limit_in word.now }
    {
        if word.len() > MOST_DIGITS {
            return None;
        }
        if begins_with_plus(word.as_bytes()) {
            return None;
        }
        match word.parse::<u64>() {
            Ok(bytes) => PartLimit::of_number(bytes),
            Err(_) => None,
        }
    }

    // The limit of so many bytes, if it is in range.
    fn of_number(bytes: u64) -> Option<PartLimit>
        ensures { result ≡ if_limit bytes }
    {
        if 0 < bytes && bytes <= MOST_BYTES {
            Some(PartLimit { bytes })
        } else {
            None
        }
    }

    /// The number of bytes.
    pub fn bytes(&self) -> u64
        ensures same { result ≡ self.now }
        ensures some { 0 < result }
        ensures most { result ≤ most_bytes }
    {
        self.bytes
    }
}

fn begins_with_plus(word: &[u8]) -> bool
    ensures { result ≡ (slice_index word.now 0 == 43) }
{
    matches!(word, [b'+', ..])
}
