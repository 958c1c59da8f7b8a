//! Where bytes are read.
ghost use Rattle.std.specs.Prelude.{◌≡◌, ◌≤◌, ◌<◌, ℕ, List, Option, None, IfOk, OnOk, OnErr, IsOk, IsErr, length};
ghost use Rattle.outside.specs.Causes.{Rose};
ghost use Rattle.outside.specs.Streams.{ReadInto, EndsAtZero};
ghost use Rattle.outside.specs.FailurePlan.{FailurePlan, FollowsPlan};

use crate::Failed;

/// Something that gives bytes to its end, such as a file or a connection.
pub trait Source {
    /// The bytes left, where they are told.
    ghost left: { Self → Option (List ℕ) };

    /// How many calls have failed.
    ghost faults: { Self → ℕ };

    /// From here on no call fails.
    ghost sound: { Self → Type 0 };

    /// Which calls are to fail, where it is told.
    ghost plan: { Self → Option FailurePlan } = { λ _. None };

    /// Moves bytes from the front of those left to the front of `into`, and answers how many. Where there is room, it is 0
    /// at the end alone. What `into` holds after them is left open, and after a failure all of it is.
    fn read(&mut self, into: &mut [u8]) -> Result<usize, Failed>
        ensures most { IfOk result (λ n. n ≤ length into.old) }
        ensures moved { IfOk result (λ n. ReadInto n into.new (left self.old) (left self.new)) }
        ensures end { IfOk result (λ n. 0 < length into.old → EndsAtZero n (left self.old)) }
        ensures failed { OnErr result (left self.new ≡ left self.old) }
        ensures counted { OnErr result (Rose (faults self.old) (faults self.new)) }
        ensures kept { OnOk result (faults self.new ≡ faults self.old) }
        ensures sound { sound self.old → sound self.new × IsOk result }
        ensures planned { FollowsPlan (plan self.old) (plan self.new) (IsErr result) };
}
