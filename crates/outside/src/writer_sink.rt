//! A sink over any writer of std.
ghost use Rattle.std.specs.Prelude.{◌≡◌, None};

use crate::fault::count_failure;
use crate::{IoFault, Sink};
use std::io::{ErrorKind, Write};

/// Writes to a writer, such as standard output, and flushes nothing. Its contract tells its count of faults and no more.
#[derive(Drop)]
pub struct WriterSink<W> {
    inner: W,
    faults: u64,
}

impl<W: Write> WriterSink<W> {
    /// No call yet.
    pub fn begin(inner: W) -> WriterSink<W>
        ensures { ⟦<WriterSink<W> as Sink>⟧.faults result ≡ 0 }
    {
        WriterSink { inner, faults: 0 }
    }

    /// How many calls have failed.
    pub fn faults(&self) -> u64
        ensures { result ≡ ⟦<WriterSink<W> as Sink>⟧.faults self.now }
    {
        self.faults
    }
}

impl<W: Write> Sink for WriterSink<W> {
    ghost taken = { λ _. None };

    ghost faults = { λ s. s.faults };

    ghost sound = { λ _. ⊥ };

    fn write(&mut self, piece: &[u8]) -> Result<usize, IoFault> {
        if piece.is_empty() {
            return Ok(0);
        }
        match self.inner.write(piece) {
            Ok(count) if count > 0 => Ok(count),
            Err(error) if error.kind() == ErrorKind::OutOfMemory => Err(IoFault::NoMemory),
            _ => {
                count_failure(&mut self.faults);
                Err(IoFault::Failed)
            }
        }
    }
}
