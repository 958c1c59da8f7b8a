//! Why a text is no bytes.
use hex::FromHexError;
use std::alloc::AllocError;
use std::num::ParseIntError;
use thiserror::Error;

/// Why a text is no bytes.
#[derive(Debug, Drop, Error)]
pub enum RowFault {
    #[error("bad digits: {0}")]
    Digits(#[from] FromHexError),
    #[error("bad count: {0}")]
    Count(#[from] ParseIntError),
    #[error("empty group")]
    EmptyGroup,
    #[error("more than {limit} bytes")]
    TooLong { limit: usize },
    #[error(transparent)]
    Memory(#[from(alloc)] AllocError),
}
