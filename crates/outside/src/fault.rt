//! Why a call of the outside failed.
ghost use Rattle.outside.specs.Causes.{Rose};

use pb_wire::NoMemory;
use std::alloc::{AllocError, AllocFailed};
use thiserror::Error;

/// The call failed, and the count of faults rose.
#[derive(Clone, Copy, Debug, PartialEq, Eq, Error)]
#[error("the call failed")]
pub struct Failed;

/// Why a call that may take memory failed.
#[derive(Clone, Copy, Debug, PartialEq, Eq, Error)]
pub enum IoFault {
    /// The call failed, and the count of faults rose.
    #[error("the call failed")]
    Failed,
    /// Out of memory. The count of faults is as it was.
    #[error("no memory")]
    NoMemory,
}

impl From<Failed> for IoFault {
    ghost use Rattle.std.specs.Prelude.{◌≡◌};
    ghost use Rattle.outside.specs.declared.fault.IoFault.TheVariants as io_fault;

    ghost from_gives = { λ _ fault. fault ≡ io_fault.Failed };

    fn from(_: Failed) -> IoFault {
        IoFault::Failed
    }
}

impl From<NoMemory> for IoFault {
    ghost use Rattle.std.specs.Prelude.{◌≡◌};
    ghost use Rattle.outside.specs.declared.fault.IoFault.TheVariants as io_fault;

    ghost from_gives = { λ _ fault. fault ≡ io_fault.NoMemory };

    fn from(_: NoMemory) -> IoFault {
        IoFault::NoMemory
    }
}

impl From<AllocError> for IoFault {
    ghost use Rattle.std.specs.Prelude.{◌≡◌};
    ghost use Rattle.outside.specs.declared.fault.IoFault.TheVariants as io_fault;

    ghost from_gives = { λ _ fault. fault ≡ io_fault.NoMemory };

    fn from(_: AllocError) -> IoFault {
        IoFault::NoMemory
    }
}

impl<T: Drop> From<AllocFailed<T>> for IoFault {
    ghost use Rattle.std.specs.Prelude.{◌≡◌};
    ghost use Rattle.outside.specs.declared.fault.IoFault.TheVariants as io_fault;

    ghost from_gives = { λ _ fault. fault ≡ io_fault.NoMemory };

    fn from(_: AllocFailed<T>) -> IoFault {
        IoFault::NoMemory
    }
}

// Counts one more failure. At the end of its type the count stays.
pub(crate) fn count_failure(faults: &mut u64)
    ensures { Rose faults.old faults.new }
{
    *faults = faults.saturating_add(1);
}
