//! The files of the system.
ghost use Rattle.std.specs.Prelude.{◌≡◌, ◌+◌, None, IfOk, refl};
ghost use Rattle.outside.specs.FileMap.{IsWithinLimit};

use crate::fault::count_failure;
use crate::{Files, Got, IoFault};
use pb_wire::Blob;
use std::alloc::Global;
use std::fs::File;
use std::io::{ErrorKind, Read};
use std::{fs, io};

/// Real files, named by their paths. Its contract tells its counts of faults and no more.
#[derive(Drop)]
pub struct DiskFiles<'a, R: std::rt::Files> {
    rt: &'a R,
    read_faults: u64,
    write_faults: u64,
}

impl<'a, R: std::rt::Files> DiskFiles<'a, R> {
    /// No call yet.
    pub fn begin(rt: &'a R) -> DiskFiles<'a, R>
        ensures read_faults { ⟦<DiskFiles<'a, R> as Files>⟧.read_faults result ≡ 0 }
        ensures write_faults { ⟦<DiskFiles<'a, R> as Files>⟧.write_faults result ≡ 0 }
    {
        DiskFiles {
            rt,
            read_faults: 0,
            write_faults: 0,
        }
    }

    /// How many reads have failed.
    pub fn read_faults(&self) -> u64
        ensures { result ≡ ⟦<DiskFiles<'a, R> as Files>⟧.read_faults self.now }
    {
        self.read_faults
    }

    /// How many writes have failed.
    pub fn write_faults(&self) -> u64
        ensures { result ≡ ⟦<DiskFiles<'a, R> as Files>⟧.write_faults self.now }
    {
        self.write_faults
    }
}

impl<'a, R: std::rt::Files> Files for DiskFiles<'a, R> {
    ghost told = { λ _. None };

    ghost read_faults = { λ f. f.read_faults };

    ghost write_faults = { λ f. f.write_faults };

    ghost faults = { λ f. f.read_faults + f.write_faults };

    ghost summed = { λ _. refl };

    ghost sound = { λ _. ⊥ };

    fn read(&mut self, alloc: Global, name: &str, limit: u64) -> Result<Got, IoFault> {
        match found(self.rt, alloc, name, limit) {
            Ok(got) => Ok(got),
            Err(error) if error.kind() == ErrorKind::OutOfMemory => Err(IoFault::NoMemory),
            Err(_) => {
                count_failure(&mut self.read_faults);
                Err(IoFault::Failed)
            }
        }
    }

    fn write(&mut self, _alloc: Global, name: &str, bytes: &[u8]) -> Result<(), IoFault> {
        match fs::write(self.rt, name, bytes) {
            Ok(()) => Ok(()),
            Err(_) => {
                count_failure(&mut self.write_faults);
                Err(IoFault::Failed)
            }
        }
    }
}

// Opens the file and reads at most one byte more than the limit.
fn found<R: std::rt::Files>(rt: &R, alloc: Global, name: &str, limit: u64) -> io::Result<Got>
    ensures { IfOk result (IsWithinLimit limit) }
{
    let file = match File::open(rt, name) {
        Ok(file) => file,
        Err(error) if error.kind() == ErrorKind::NotFound => return Ok(Got::Missing),
        Err(error) => return Err(error),
    };
    let mut bytes = Vec::new(alloc);
    file.take(limit.saturating_add(1)).read_to_end(&mut bytes)?;
    if bytes.len() as u64 > limit {
        return Ok(Got::Long {
            at_least: limit + 1,
        });
    }
    Ok(Got::Whole(Blob::from_vec(bytes)))
}
