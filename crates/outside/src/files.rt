//! Named files.
ghost use Rattle.std.specs.Prelude.{◌≡◌, ◌+◌, ℕ, List, Option, None, IfOk, IfSome, OnOk, IsErrOf};
ghost use Rattle.outside.specs.Causes.{Counted, NeverFails};
ghost use Rattle.outside.specs.FileMap.{FileMap, got_of, IsWithinLimit, with_file, SameBut};
ghost use Rattle.outside.specs.FailurePlan.{FailurePlan, FollowsPlan};

use crate::IoFault;
use pb_wire::Blob;
use std::alloc::Global;

/// What a read with a limit found.
#[derive(Debug, Drop)]
pub enum Got {
    /// All bytes of the file, at most the limit.
    Whole(Blob),
    /// The file has more bytes than the limit, so at least one more.
    Long { at_least: u64 },
    /// There is no such file.
    Missing,
}

/// A map of names to bytes, such as a folder.
pub trait Files {
    /// The map of names to bytes, where it is told.
    ghost told: { Self → Option FileMap };

    /// How many reads have failed.
    ghost read_faults: { Self → ℕ };

    /// How many writes have failed.
    ghost write_faults: { Self → ℕ };

    /// How many calls have failed: reads and writes together.
    ghost faults: { Self → ℕ };

    /// That is their sum.
    ghost summed: { (f : Self) → faults f ≡ read_faults f + write_faults f };

    /// The last call was a read of this name, and it failed. Nothing is known of it but what `read` says, so code over any
    /// files can name a failed read only where it was of that name, and where nothing was called since.
    ghost read_failed: { Self → List ℕ → Type 0 } = { λ _ _. Unit {0} };

    /// The same of a write.
    ghost write_failed: { Self → List ℕ → Type 0 } = { λ _ _. Unit {0} };

    /// From here on no call fails.
    ghost sound: { Self → Type 0 };

    /// Which calls are to fail, where it is told.
    ghost plan: { Self → Option FailurePlan } = { λ _. None };

    /// The bytes under a name, if there are at most `limit`. A missing name is no failure.
    fn read(&mut self, alloc: Global, name: &str, limit: u64) -> Result<Got, IoFault>
        ensures got { IfOk result (λ got. IfSome (told self.old) (λ m. got ≡ got_of m name.now limit)) }
        ensures within { IfOk result (IsWithinLimit limit) }
        ensures same { told self.new ≡ told self.old }
        ensures cause { Counted (read_faults self.old) (read_faults self.new) result }
        ensures writes { write_faults self.new ≡ write_faults self.old }
        ensures named { IsErrOf result IoFault.Failed → read_failed self.new name.now }
        ensures sound { sound self.old → sound self.new × NeverFails result }
        ensures planned { FollowsPlan (plan self.old) (plan self.new) (IsErrOf result IoFault.Failed) };

    /// Puts the bytes under the name, in the place of those that were there. After a failure nothing is told of the
    /// bytes under this name.
    fn write(&mut self, alloc: Global, name: &str, bytes: &[u8]) -> Result<(), IoFault>
        ensures ok { OnOk result (told self.new ≡ with_file name.now bytes.now (told self.old)) }
        ensures failed { IsErrOf result IoFault.Failed → SameBut name.now (told self.old) (told self.new) }
        ensures no_memory { IsErrOf result IoFault.NoMemory → told self.new ≡ told self.old }
        ensures cause { Counted (write_faults self.old) (write_faults self.new) result }
        ensures reads { read_faults self.new ≡ read_faults self.old }
        ensures named { IsErrOf result IoFault.Failed → write_failed self.new name.now }
        ensures sound { sound self.old → sound self.new × NeverFails result }
        ensures planned { FollowsPlan (plan self.old) (plan self.new) (IsErrOf result IoFault.Failed) };
}
