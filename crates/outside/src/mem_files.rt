//! Files in memory.
ghost use Rattle.std.specs.Prelude.{◌≡◌, ◌+◌, [], Some, IfOk, IfErr, refl};
ghost use Rattle.outside.specs.FileMap.{found};
ghost use Rattle.std.specs.FinMap as map;
ghost use Rattle.std.specs.Option.{option_copied};
ghost use Rattle.std.specs.Ordering.{nat_cmp};
ghost use Rattle.std.specs.Cmp.Lexicographic.{slice_cmp};

use crate::fault::count_failure;
use crate::{Failures, Files, Got, IoFault};
use pb_wire::{Blob, Text};
use std::alloc::Global;
use std::collections::VecDeque;

/// All writes so far, the newest first.
#[derive(Drop)]
pub struct MemFiles {
    writes: VecDeque<(Text, Blob)>,
    failures: Failures,
    read_faults: u64,
    write_faults: u64,
}

impl MemFiles {
    /// No files. The calls with these numbers, counted from 0 over reads and writes together, are to fail.
    pub fn begin(alloc: Global, failing: Vec<u64>) -> MemFiles
        ensures told { ⟦<MemFiles as Files>⟧.told result ≡ Some map.empty }
        ensures read_faults { ⟦<MemFiles as Files>⟧.read_faults result ≡ 0 }
        ensures write_faults { ⟦<MemFiles as Files>⟧.write_faults result ≡ 0 }
        ensures plan { ⟦<MemFiles as Files>⟧.plan result ≡ Some (failing.items, 0) }
        ensures sound { failing.items ≡ [] → ⟦<MemFiles as Files>⟧.sound result }
    {
        MemFiles {
            writes: VecDeque::new(alloc),
            failures: Failures::begin(failing),
            read_faults: 0,
            write_faults: 0,
        }
    }
}

impl Files for MemFiles {
    ghost told = { λ f. Some (map.from_entries f.writes.items) };

    ghost read_faults = { λ f. f.read_faults };

    ghost write_faults = { λ f. f.write_faults };

    ghost faults = { λ f. f.read_faults + f.write_faults };

    ghost summed = { λ _. refl };

    ghost sound = { λ f. f.failures.numbers.items ≡ [] };

    ghost plan = { λ f. Some (f.failures.numbers.items, f.failures.calls) };

    fn read(&mut self, alloc: Global, name: &str, limit: u64) -> Result<Got, IoFault> {
        if self.failures.strikes() {
            count_failure(&mut self.read_faults);
            return Err(IoFault::Failed);
        }
        match newest(&self.writes, name) {
            Some(bytes) => got_within(alloc, bytes, limit),
            None => Ok(Got::Missing),
        }
    }

    fn write(&mut self, alloc: Global, name: &str, bytes: &[u8]) -> Result<(), IoFault> {
        if self.failures.strikes() {
            count_failure(&mut self.write_faults);
            return Err(IoFault::Failed);
        }
        let name = Text::copy_of(alloc, name)?;
        let bytes = Blob::copy_of(alloc, bytes)?;
        self.writes.push_front((name, bytes))?;
        Ok(())
    }
}

// What a read with this limit finds of these bytes.
fn got_within(alloc: Global, bytes: &Blob, limit: u64) -> Result<Got, IoFault>
    ensures ok { IfOk result (λ got. got ≡ found (Some bytes.now) limit) }
    ensures err { IfErr result (λ fault. fault ≡ IoFault.NoMemory) }
{
    if bytes.len() as u64 > limit {
        return Ok(Got::Long {
            at_least: limit + 1,
        });
    }
    Ok(Got::Whole(Blob::copy_of(alloc, bytes.as_slice())?))
}

// The bytes of the newest write under this name.
fn newest<'a>(writes: &'a VecDeque<(Text, Blob)>, name: &str) -> Option<&'a Blob>
    ensures { option_copied result ≡ map.find (slice_cmp nat_cmp) name.now writes.now.items }
{
    for (held, bytes) in writes {
        if name == held.as_str() {
            return Some(bytes);
        }
    }
    None
}
