//! Writes an output: the files in order, then the lines.
ghost use Rattle.collector.specs.Carrying.{Delivers};
ghost use Rattle.collector.specs.Causes.{IsWriteAt};
ghost use Rattle.collector.specs.RunSteps.{IsWritten, AreWritten, IsDelivered};

use crate::{Output, Stop};
use outside::{Files, IoFault, Sink, put_all};
use pb_wire::{Blob, Text};
use std::alloc::Global;

/// Writes the files in order, and then the lines. What was written before a failed write stays.
pub fn write_output<F: Files, O: Sink>(
    alloc: Global,
    output: &Output,
    files: &mut F,
    out: &mut O,
) -> Result<(), Stop>
    ensures { IsDelivered F.Files O.Sink files.old files.new out.old out.new output.now result }
{
    if let Err(stop) = write_files(alloc, output.files.as_slice(), files) {
        return Err(stop);
    }
    match put_all(out, output.lines.as_bytes()) {
        Ok(()) => Ok(()),
        Err(IoFault::Failed) => Err(write_stop(alloc, "standard output")),
        Err(IoFault::NoMemory) => Err(Stop::NoMemory),
    }
}

/// The same of the output of a plan, if there is one.
pub fn write_performed<F: Files, O: Sink>(
    alloc: Global,
    performed: Result<Output, Stop>,
    files: &mut F,
    out: &mut O,
) -> Result<(), Stop>
    ensures { Delivers F.Files O.Sink files.old files.new out.old out.new performed result }
{
    match performed {
        Ok(output) => write_output(alloc, &output, files, out),
        Err(stop) => Err(stop),
    }
}

// The files in order, up to the first that isn't written.
fn write_files<F: Files>(alloc: Global, list: &[(Text, Blob)], files: &mut F) -> Result<(), Stop>
    ensures { AreWritten F.Files files.old files.new list.now result }
{
    for (name, bytes) in list {
        if let Err(stop) = write_one(alloc, name, bytes, files) {
            return Err(stop);
        }
    }
    Ok(())
}

fn write_one<F: Files>(alloc: Global, name: &Text, bytes: &Blob, files: &mut F) -> Result<(), Stop>
    ensures { IsWritten F.Files files.old files.new name.now bytes.now result }
{
    match files.write(alloc, name.as_str(), bytes.as_slice()) {
        Ok(()) => Ok(()),
        Err(IoFault::Failed) => Err(write_stop(alloc, name.as_str())),
        Err(IoFault::NoMemory) => Err(Stop::NoMemory),
    }
}

/// The stop at a failed write under this name.
pub fn write_stop(alloc: Global, name: &str) -> Stop
    ensures { IsWriteAt name.now (λ _. Unit {0}) result }
{
    match Text::copy_of(alloc, name) {
        Ok(name) => Stop::Write { name },
        Err(_) => Stop::NoMemory,
    }
}
