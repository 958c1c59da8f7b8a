//! A source in memory.
ghost use Rattle.std.specs.Prelude.{◌≡◌, ◌≤◌, Some, [], drop, take, length, min, vec_len};

use crate::fault::count_failure;
use crate::{Failed, Failures, Source};

/// Gives the bytes that it is made with, in order.
#[derive(Drop)]
pub struct MemSource {
    bytes: Vec<u8>,
    // How many of the bytes have been read.
    at: usize,
    failures: Failures,
    faults: u64,
    ghost in_range: { at ≤ vec_len bytes },
}

impl MemSource {
    /// These bytes are left. The reads with these numbers, counted from 0, are to fail.
    pub fn begin(bytes: Vec<u8>, failing: Vec<u64>) -> MemSource
        ensures left { ⟦<MemSource as Source>⟧.left result ≡ Some bytes.items }
        ensures faults { ⟦<MemSource as Source>⟧.faults result ≡ 0 }
        ensures plan { ⟦<MemSource as Source>⟧.plan result ≡ Some (failing.items, 0) }
        ensures sound { failing.items ≡ [] → ⟦<MemSource as Source>⟧.sound result }
    {
        MemSource {
            bytes,
            at: 0,
            failures: Failures::begin(failing),
            faults: 0,
        }
    }
}

impl Source for MemSource {
    ghost left = { λ s. Some (drop s.at s.bytes.items) };

    ghost faults = { λ s. s.faults };

    ghost sound = { λ s. s.failures.numbers.items ≡ [] };

    ghost plan = { λ s. Some (s.failures.numbers.items, s.failures.calls) };

    fn read(&mut self, into: &mut [u8]) -> Result<usize, Failed> {
        if self.failures.strikes() {
            count_failure(&mut self.faults);
            return Err(Failed);
        }
        let (_, left) = self.bytes.split_at(self.at);
        let count = copy_front(left, into);
        self.at += count;
        Ok(count)
    }
}

// Copies as many of the bytes as there is room for, and answers how many.
fn copy_front(bytes: &[u8], into: &mut [u8]) -> usize
    ensures count { result ≡ min (length bytes.now) (length into.old) }
    ensures front { take result into.new ≡ take result bytes.now }
{
    let count = bytes.len().min(into.len());
    into[..count].copy_from_slice(&bytes[..count]);
    count
}
