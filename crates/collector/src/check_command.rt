//! The command `check`.
ghost use Rattle.std.specs.Prelude.{[], ◌∷◌};
ghost use Rattle.otlp_msg.specs.Checked.{value_of};
ghost use Rattle.collector.specs.CheckAnswer.{lines_at, line_at, line_in, message_line};
ghost use Rattle.collector.specs.RunSteps.{IsComputed, IsRead, IsPerformed};

use crate::lines::ok_line;
use crate::reading::{checked_message, read_bytes};
use crate::{Output, Stop, Writes};
use commands::{Texts, ToolPlan};
use otlp_msg::Checked;
use outside::Files;
use pb_wire::{NoMemory, Text};
use std::alloc::Global;

/// What `check IN..` prints.
pub fn perform_check<F: Files>(alloc: Global, names: &Texts, files: &mut F) -> Result<Output, Stop>
    ensures { IsPerformed F.Files files.old files.new (ToolPlan.Check names.now) result }
{
    match lines_of_files(alloc, names.as_slice(), files) {
        Ok(lines) => Ok(Output {
            files: Writes::begin(alloc),
            lines,
        }),
        Err(stop) => Err(stop),
    }
}

// The lines of files in order, up to the first that is missing, refused or not read.
fn lines_of_files<F: Files>(alloc: Global, names: &[Text], files: &mut F) -> Result<Text, Stop>
    ensures { IsRead F.Files files.old files.new names.now (λ m. lines_at m names.now) result }
{
    let mut lines = Text::begin(alloc);
    for name in names {
        match line_of_file(alloc, name, files) {
            Ok(line) => {
                if let Err(NoMemory) = lines.append(line.as_str()) {
                    return Err(Stop::NoMemory);
                }
            }
            Err(stop) => return Err(stop),
        }
    }
    Ok(lines)
}

// The line of one file. Of what was read nothing is kept.
fn line_of_file<F: Files>(alloc: Global, name: &Text, files: &mut F) -> Result<Text, Stop>
    ensures { IsRead F.Files files.old files.new (name.now ∷ []) (λ m. line_at m name.now) result }
{
    match read_bytes(alloc, name, files) {
        Ok(body) => line_of_bytes(alloc, name, body.as_slice()),
        Err(stop) => Err(stop),
    }
}

// The same from the bytes of the file.
fn line_of_bytes(alloc: Global, name: &Text, body: &[u8]) -> Result<Text, Stop>
    ensures { IsComputed (line_in name.now body.now) result }
{
    match checked_message(alloc, name, body) {
        Ok(message) => line_of_message(alloc, name, &message),
        Err(stop) => Err(stop),
    }
}

// How much there is in a message.
fn line_of_message(alloc: Global, name: &Text, message: &Checked<'_>) -> Result<Text, Stop>
    ensures { IsComputed (message_line name.now (value_of message.now)) result }
{
    let profiles = message.profile_count();
    let samples = message.sample_count();
    Ok(ok_line(alloc, name.as_str(), profiles, samples)?)
}
