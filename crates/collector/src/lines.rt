//! The lines that the tool prints. Each ends with a line feed.
ghost use Rattle.std.specs.Prelude.{◌≡◌, IfOk};
ghost use Rattle.collector.specs.Lines.{words_text, file_text, limit_text, read_text, write_text, no_memory_text, wrote_text, ok_text, reason_name};

use commands::WordReason;
use pb_wire::{NoMemory, Text};
use std::alloc::Global;

/// On the standard output: a file was written, with this number of bytes.
pub fn wrote_line(alloc: Global, target: &str, size: usize) -> Result<Text, NoMemory>
    ensures { IfOk result (λ line. line ≡ wrote_text target.now size) }
{
    let line = format!(in alloc; "wrote {target}, {size} bytes\n")?;
    Ok(Text::from_string(line))
}

/// On the standard output: a file is a message, with so many profiles and samples.
pub fn ok_line(alloc: Global, name: &str, profiles: u64, samples: u64) -> Result<Text, NoMemory>
    ensures { IfOk result (λ line. line ≡ ok_text name.now profiles samples) }
{
    let line = format!(in alloc; "{name}: ok, {profiles} profiles, {samples} samples\n")?;
    Ok(Text::from_string(line))
}

/// On the standard error: the word at this place is refused.
pub fn words_line(alloc: Global, place: u32, reason: WordReason) -> Result<Text, NoMemory>
    ensures { IfOk result (λ line. line ≡ words_text place reason) }
{
    let reason = name_of(reason);
    let line = format!(in alloc; "otelprof: word {place}: {reason}\n")?;
    Ok(Text::from_string(line))
}

/// On the standard error: a file is missing or refused.
pub fn file_line(alloc: Global, name: &str, text: &str) -> Result<Text, NoMemory>
    ensures { IfOk result (λ line. line ≡ file_text name.now text.now) }
{
    let line = format!(in alloc; "{name}: {text}\n")?;
    Ok(Text::from_string(line))
}

/// On the standard error: the output would have this number of bytes.
pub fn limit_line(alloc: Global, size: u128) -> Result<Text, NoMemory>
    ensures { IfOk result (λ line. line ≡ limit_text size) }
{
    let line = format!(in alloc; "output limit: {size} bytes\n")?;
    Ok(Text::from_string(line))
}

/// On the standard error: the read of a file failed.
pub fn read_line(alloc: Global, name: &str) -> Result<Text, NoMemory>
    ensures { IfOk result (λ line. line ≡ read_text name.now) }
{
    let line = format!(in alloc; "read failed: {name}\n")?;
    Ok(Text::from_string(line))
}

/// On the standard error: the write of a file, or of the standard output, failed.
pub fn write_line(alloc: Global, name: &str) -> Result<Text, NoMemory>
    ensures { IfOk result (λ line. line ≡ write_text name.now) }
{
    let line = format!(in alloc; "write failed: {name}\n")?;
    Ok(Text::from_string(line))
}

/// On the standard error: out of memory.
pub fn no_memory_line(alloc: Global) -> Result<Text, NoMemory>
    ensures { IfOk result (λ line. line ≡ no_memory_text) }
{
    Text::copy_of(alloc, "no memory\n")
}

fn name_of(reason: WordReason) -> &'static str
    ensures { result.now ≡ reason_name reason }
{
    match reason {
        WordReason::NoCommand => "NoCommand",
        WordReason::UnknownCommand => "UnknownCommand",
        WordReason::MissingWord => "MissingWord",
        WordReason::ExtraWord => "ExtraWord",
        WordReason::BadNumber => "BadNumber",
    }
}
