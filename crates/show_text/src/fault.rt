//! Why a text is not shown, or not whole.
use pb_wire::NoMemory;
use thiserror::Error;

/// Why a text is not shown, or not whole.
#[derive(Clone, Copy, Debug, PartialEq, Eq, Error)]
pub enum ShowFault {
    /// The text has so many bytes, which are more than may be shown. None was written.
    #[error("output limit: {len} bytes")]
    ShowLimit { len: u128 },
    /// A write failed, and the sink's count of faults rose. A part of the text from its front was written, but not all.
    #[error("the write failed")]
    WriteFault,
    #[error("no memory")]
    NoMemory,
}

impl From<NoMemory> for ShowFault {
    ghost use Rattle.std.specs.Prelude.{◌≡◌};
    ghost use Rattle.show_text.specs.declared.fault.ShowFault.TheVariants as fault;

    ghost from_gives = { λ _ f. f ≡ fault.NoMemory };

    fn from(_: NoMemory) -> ShowFault {
        ShowFault::NoMemory
    }
}
