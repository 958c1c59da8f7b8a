//! A sink in memory.
ghost use Rattle.std.specs.Prelude.{◌≡◌, Some, []};

use crate::fault::count_failure;
use crate::{Failures, IoFault, Sink};
use std::alloc::Global;

/// Keeps all that it takes.
#[derive(Drop)]
pub struct MemSink {
    bytes: Vec<u8>,
    failures: Failures,
    faults: u64,
}

impl MemSink {
    /// Nothing taken. The writes with these numbers, counted from 0, are to fail.
    pub fn begin(alloc: Global, failing: Vec<u64>) -> MemSink
        ensures taken { ⟦<MemSink as Sink>⟧.taken result ≡ Some [] }
        ensures faults { ⟦<MemSink as Sink>⟧.faults result ≡ 0 }
        ensures plan { ⟦<MemSink as Sink>⟧.plan result ≡ Some (failing.items, 0) }
        ensures sound { failing.items ≡ [] → ⟦<MemSink as Sink>⟧.sound result }
    {
        MemSink {
            bytes: Vec::new(alloc),
            failures: Failures::begin(failing),
            faults: 0,
        }
    }

    /// The bytes taken.
    pub fn bytes(&self) -> &[u8]
        ensures { ⟦<MemSink as Sink>⟧.taken self.now ≡ Some result.now }
    {
        &self.bytes
    }
}

impl Sink for MemSink {
    ghost taken = { λ s. Some s.bytes.items };

    ghost faults = { λ s. s.faults };

    ghost sound = { λ s. s.failures.numbers.items ≡ [] };

    ghost plan = { λ s. Some (s.failures.numbers.items, s.failures.calls) };

    fn write(&mut self, piece: &[u8]) -> Result<usize, IoFault> {
        if self.failures.strikes() {
            count_failure(&mut self.faults);
            return Err(IoFault::Failed);
        }
        self.bytes.extend_from_slice(piece)?;
        Ok(piece.len())
    }
}
