//! From text to bytes.
use crate::RowFault;
use std::alloc::Global;

// At most so many bytes are made of a text, however large its counts.
const LIMIT: usize = 1 << 26;

/// The bytes that a text stands for.
pub fn bytes_of(alloc: Global, text: &str) -> Result<Vec<u8>, RowFault> {
    let mut bytes = Vec::new(alloc);
    if text.is_empty() {
        return Ok(bytes);
    }
    for group in text.split(',') {
        append_group(alloc, group, &mut bytes)?;
    }
    Ok(bytes)
}

// Puts the bytes of one group at the end.
fn append_group(alloc: Global, group: &str, bytes: &mut Vec<u8>) -> Result<(), RowFault> {
    let Some((count, digits)) = group.split_once('*') else {
        return append_repeated(&hex::decode(alloc, group)?, 1, bytes);
    };
    append_repeated(&hex::decode(alloc, digits)?, count.parse()?, bytes)
}

// Puts a piece at the end, so many times.
fn append_repeated(piece: &[u8], count: usize, bytes: &mut Vec<u8>) -> Result<(), RowFault> {
    if piece.is_empty() {
        return Err(RowFault::EmptyGroup);
    }
    let total = piece
        .len()
        .checked_mul(count)
        .and_then(|len| len.checked_add(bytes.len()));
    if total.is_none_or(|total| total > LIMIT) {
        return Err(RowFault::TooLong { limit: LIMIT });
    }
    for _ in 0..count {
        bytes.extend_from_slice(piece)?;
    }
    Ok(())
}
