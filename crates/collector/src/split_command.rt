//! The command `split`.
ghost use Rattle.std.specs.Prelude.{◌≡◌, ◌<◌, ◌≤◌, Some, map, length, IfOk, OnOk};
ghost use Rattle.otlp_msg.specs.Checked.{value_of};
ghost use Rattle.commands.specs.PartNames.{part_name};
ghost use Rattle.split_merge.specs.Splits.{split_parts};
ghost use Rattle.collector.specs.RunSteps.{IsComputed, IsPerformed};
ghost use Rattle.collector.specs.SplitAnswer.{ArePartFiles, split_files};
ghost use Rattle.collector.specs.SplitSteps.{with_part};

use crate::kept::{KeptFiles, kept_messages, read_files};
use crate::lines::wrote_line;
use crate::{Output, Stop, Writes};
use commands::{PartLimit, Texts, ToolPlan};
use otlp_msg::Messages;
use outside::{Files, Seeds};
use pb_wire::{Blob, NoMemory, Text};
use split_merge::Splitter;
use std::alloc::Global;

/// What `split LIMIT PREFIX IN..` writes.
pub fn perform_split<F: Files, M: Seeds>(
    alloc: Global,
    limit: PartLimit,
    prefix: &Text,
    names: &Texts,
    files: &mut F,
    seeds: &mut M,
) -> Result<Output, Stop>
    ensures { IsPerformed F.Files files.old files.new (ToolPlan.Split limit prefix.now names.now) result }
{
    let KeptFiles { files: kept, stop } = read_files(alloc, names.as_slice(), files);
    match kept_messages(alloc, kept.as_slice(), stop) {
        Ok(messages) => split_messages(alloc, limit, prefix, &messages, seeds),
        Err(stop) => Err(stop),
    }
}

// The canonical bytes of the parts of messages, each as one file.
fn split_messages<M: Seeds>(
    alloc: Global,
    limit: PartLimit,
    prefix: &Text,
    messages: &Messages<'_>,
    seeds: &mut M,
) -> Result<Output, Stop>
    ensures computed { IsComputed (split_files limit prefix.now (map value_of messages.now)) result }
    ensures kept { IfOk result (λ output. ArePartFiles limit prefix.now (split_parts limit (map value_of messages.now)) output.files) }
{
    let mut output = Output {
        files: Writes::begin(alloc),
        lines: Text::begin(alloc),
    };
    let mut splitter = Splitter::begin(alloc, limit.bytes(), messages, seeds)?;
    'parts: loop {
        match splitter.next(alloc) {
            Ok(part) => match part {
                Some(bytes) => {
                    if let Err(NoMemory) = add_part(alloc, prefix, bytes, &mut output) {
                        return Err(Stop::NoMemory);
                    }
                }
                None => return Ok(output),
            },
            Err(fault) => return Err(fault.into()),
        }
    }
}

// One part more, as a file, and the line that it was written.
fn add_part(alloc: Global, prefix: &Text, bytes: Blob, output: &mut Output) -> Result<(), NoMemory>
    ensures { OnOk result (output.new ≡ with_part prefix.now bytes output.old) }
{
    let name = part_name(alloc, prefix.as_str(), output.files.len())?;
    let line = wrote_line(alloc, name.as_str(), bytes.len())?;
    output.lines.append(line.as_str())?;
    output.files.add((name, bytes))?;
    Ok(())
}

// The name of the part at a place.
fn part_name(alloc: Global, prefix: &str, place: usize) -> Result<Text, NoMemory>
    ensures { IfOk result (λ name. name ≡ part_name prefix.now place) }
{
    let name = format!(in alloc; "{prefix}.{place}.otlp")?;
    Ok(Text::from_string(name))
}
