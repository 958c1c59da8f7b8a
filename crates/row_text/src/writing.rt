//! From bytes to text.
use itertools::Itertools;
use std::alloc::{AllocError, Global};

// Fewer equal bytes than this, one after another, are written as digits.
const SHORTEST_REPETITION: usize = 64;

/// The text of bytes. A run of at least 64 equal bytes is a repetition.
pub fn text_of(alloc: Global, bytes: &[u8]) -> Result<String, AllocError> {
    let mut text = String::new(alloc);
    let mut in_digits = false;
    for (count, byte) in bytes.iter().copied().dedup_with_count() {
        let is_repetition = count >= SHORTEST_REPETITION;
        if !text.is_empty() && (is_repetition || !in_digits) {
            text.push(',')?;
        }
        if is_repetition {
            text.push_str(format!(in alloc; "{count}*{byte:02x}")?.as_str())?;
        } else {
            append_digits(alloc, byte, count, &mut text)?;
        }
        in_digits = !is_repetition;
    }
    Ok(text)
}

// Puts the digits of a byte at the end, so many times.
fn append_digits(
    alloc: Global,
    byte: u8,
    count: usize,
    text: &mut String,
) -> Result<(), AllocError> {
    let digits = hex::encode(alloc, [byte])?;
    for _ in 0..count {
        text.push_str(digits.as_str())?;
    }
    Ok(())
}
