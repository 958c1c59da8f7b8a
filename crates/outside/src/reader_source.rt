//! A source over any reader of std.
ghost use Rattle.std.specs.Prelude.{◌≡◌, None};

use crate::fault::count_failure;
use crate::{Failed, Source};
use std::io::Read;

/// Reads from a reader. Its contract tells its count of faults and no more.
#[derive(Drop)]
pub struct ReaderSource<R> {
    inner: R,
    faults: u64,
}

impl<R: Read> ReaderSource<R> {
    /// No call yet.
    pub fn begin(inner: R) -> ReaderSource<R>
        ensures { ⟦<ReaderSource<R> as Source>⟧.faults result ≡ 0 }
    {
        ReaderSource { inner, faults: 0 }
    }

    /// How many calls have failed.
    pub fn faults(&self) -> u64
        ensures { result ≡ ⟦<ReaderSource<R> as Source>⟧.faults self.now }
    {
        self.faults
    }
}

impl<R: Read> Source for ReaderSource<R> {
    ghost left = { λ _. None };

    ghost faults = { λ s. s.faults };

    ghost sound = { λ _. ⊥ };

    fn read(&mut self, into: &mut [u8]) -> Result<usize, Failed> {
        match self.inner.read(into) {
            Ok(count) => Ok(count),
            Err(_) => {
                count_failure(&mut self.faults);
                Err(Failed)
            }
        }
    }
}
