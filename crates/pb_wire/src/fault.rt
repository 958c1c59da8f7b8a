//! Faults of bytes that are read as a message.
ghost use Rattle.std.specs.Prelude.{◌≡◌};
ghost use Rattle.pb_wire.specs.declared.fault.ReadFault.TheVariants as read_fault;

use crate::NoMemory;
use std::alloc::{AllocError, AllocFailed};
use thiserror::Error;

/// What is wrong with the bytes.
#[derive(Clone, Copy, Debug, PartialEq, Eq)]
pub enum Reason {
    /// A tag, a number, a length or a payload ends past the bytes that enclose it.
    Truncated,
    /// The tenth byte of a varint is above 1.
    VarintLong,
    /// The number of a field is 0 or above 536,870,911.
    FieldNumber,
    /// The wire type is 3, 4, 6 or 7.
    WireType,
    /// The bytes of a text are not UTF-8.
    NotUtf8,
    /// A packed list has a wrong length.
    PackedLength,
    /// An AnyValue is nested deeper than 64.
    TooDeep,
}

/// A fault of the wire format: the place of the tag, in bytes from the beginning of the file, and the reason.
#[derive(Clone, Copy, Debug, PartialEq, Eq, Error)]
#[error("{reason:?} at {place}")]
pub struct WireFault {
    pub place: u64,
    pub reason: Reason,
}

/// Why a message could not be read.
#[derive(Clone, Copy, Debug, PartialEq, Eq, Error)]
pub enum ReadFault {
    #[error("wire fault {0}")]
    Wire(WireFault),
    #[error("no memory")]
    NoMemory,
}

impl From<NoMemory> for ReadFault {
    ghost from_gives = { λ _ e. e ≡ read_fault.NoMemory };

    fn from(_: NoMemory) -> ReadFault {
        ReadFault::NoMemory
    }
}

impl From<AllocError> for ReadFault {
    ghost from_gives = { λ _ e. e ≡ read_fault.NoMemory };

    fn from(_: AllocError) -> ReadFault {
        ReadFault::NoMemory
    }
}

impl<T: Drop> From<AllocFailed<T>> for ReadFault {
    ghost from_gives = { λ _ e. e ≡ read_fault.NoMemory };

    fn from(_: AllocFailed<T>) -> ReadFault {
        ReadFault::NoMemory
    }
}
