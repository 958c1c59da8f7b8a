//! Why no message is built.
use pb_wire::NoMemory;
use thiserror::Error;

/// Why no message is built.
#[derive(Clone, Copy, Debug, PartialEq, Eq, Error)]
pub enum BuildFault {
    /// There would be more bytes than the limit allows; `size` is their number.
    #[error("output limit: {size} bytes")]
    OutputLimit { size: u64 },
    #[error("no memory")]
    NoMemory,
}

impl From<NoMemory> for BuildFault {
    ghost use Rattle.std.specs.Prelude.{◌≡◌};
    ghost use Rattle.draft_contents.specs.declared.fault.BuildFault.TheVariants as fault;

    ghost from_gives = { λ _ f. f ≡ fault.NoMemory };

    fn from(_: NoMemory) -> BuildFault {
        BuildFault::NoMemory
    }
}
