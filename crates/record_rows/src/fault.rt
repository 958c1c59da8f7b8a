//! Why a line is no case.
use pb_wire::{NoMemory, ReadFault};
use row_text::RowFault;
use std::alloc::AllocError;
use std::num::ParseIntError;
use thiserror::Error;

/// Why a line is no case.
#[derive(Debug, Drop, Error)]
pub enum CaseFault {
    #[error("unknown kind")]
    Kind,
    #[error("missing data")]
    Missing,
    #[error("too much data")]
    Extra,
    #[error("place past the end")]
    Place,
    #[error("bad number: {0}")]
    Number(#[from] ParseIntError),
    #[error(transparent)]
    Bytes(#[from] RowFault),
    #[error(transparent)]
    Read(#[from] ReadFault),
    #[error(transparent)]
    Alloc(#[from(alloc)] AllocError),
    #[error(transparent)]
    NoMemory(#[from] NoMemory),
}
