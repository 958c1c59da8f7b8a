//! Where bytes are written.
ghost use Rattle.std.specs.Prelude.{◌≡◌, ◌≤◌, ◌<◌, ℕ, List, Option, None, IfOk, OnOk, OnErr, IsErrOf, take, length};
ghost use Rattle.outside.specs.Causes.{Counted, NeverFails};
ghost use Rattle.outside.specs.Streams.{appended, TookPrefix};
ghost use Rattle.outside.specs.FailurePlan.{FailurePlan, FollowsPlan};

use crate::IoFault;

/// Something that takes bytes, such as standard output.
pub trait Sink {
    /// The bytes taken, where they are told.
    ghost taken: { Self → Option (List ℕ) };

    /// How many calls have failed.
    ghost faults: { Self → ℕ };

    /// From here on no call fails.
    ghost sound: { Self → Type 0 };

    /// Which calls are to fail, where it is told.
    ghost plan: { Self → Option FailurePlan } = { λ _. None };

    /// Takes bytes from the front of the piece, and answers how many: at least one where there is one, and 0 of an
    /// empty piece. After a failure, or when out of memory, none was taken.
    fn write(&mut self, piece: &[u8]) -> Result<usize, IoFault>
        ensures most { IfOk result (λ n. n ≤ length piece.now) }
        ensures some { IfOk result (λ n. 0 < length piece.now → 0 < n) }
        ensures ok { IfOk result (λ n. taken self.new ≡ appended (taken self.old) (take n piece.now)) }
        ensures refused { OnErr result (taken self.new ≡ taken self.old) }
        ensures cause { Counted (faults self.old) (faults self.new) result }
        ensures sound { sound self.old → sound self.new × NeverFails result }
        ensures planned { FollowsPlan (plan self.old) (plan self.new) (IsErrOf result IoFault.Failed) };
}

/// Writes all of the text. After a failure, or when out of memory, a part from its front was taken, but not all.
pub fn put_all<S: Sink>(sink: &mut S, text: &[u8]) -> Result<(), IoFault>
    ensures ok { OnOk result (S.taken sink.new ≡ appended (S.taken sink.old) text.now) }
    ensures refused { OnErr result (TookPrefix text.now (S.taken sink.old) (S.taken sink.new)) }
    ensures cause { Counted (S.faults sink.old) (S.faults sink.new) result }
    ensures sound { S.sound sink.old → S.sound sink.new × NeverFails result }
{
    let mut at = 0;
    while at < text.len() {
        at += sink.write(&text[at..])?;
    }
    Ok(())
}
