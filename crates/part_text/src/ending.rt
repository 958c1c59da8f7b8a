//! What is put after the records of a message.
ghost use Rattle.std.specs.Prelude.{◌≡◌, ◌++◌, List, ℕ, length, take, OnOk, OnErr};

use pb_wire::{Blob, NoMemory};

/// Bytes that are put after the records of a message.
pub trait Ending {
    ghost text: { Self → List ℕ };

    /// The number of the bytes. It takes no memory.
    fn len(&self) -> u64
        ensures { result ≡ length (text self.now) };

    /// Puts the bytes at the end. After an error, which says out of memory, the bytes so far are still in front.
    fn put(&self, out: &mut Blob) -> Result<(), NoMemory>
        ensures ok { OnOk result (out.new ≡ out.old ++ text self.now) }
        ensures err { OnErr result (take (length out.old) out.new ≡ out.old) };
}
