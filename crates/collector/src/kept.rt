//! Files whose bytes are kept, and the messages in them.
ghost use Rattle.std.specs.Prelude.{◌≡◌, ◌++◌, ◌∷◌, [], Ok, None, map, IfOk, IfErr, OnOk, OnErr};
ghost use Rattle.otlp_msg.specs.Checked.{value_of};
ghost use Rattle.collector.specs.Causes.{IsStop, IsOfInput};
ghost use Rattle.collector.specs.KeptFiles.{IsFirstStop, IsKept, kept_file, message_in};
ghost use Rattle.collector.specs.Messages.{bytes_at, each};
ghost use Rattle.collector.specs.RunSteps.{ReadsTo};

use crate::Stop;
use crate::reading::{checked_message, read_bytes};
use otlp_msg::Messages;
use outside::Files;
use pb_wire::{Blob, List, NoMemory, Text};
use std::alloc::Global;

/// A file, with its bytes.
#[derive(Drop)]
pub struct KeptFile {
    pub name: Text,
    pub body: Blob,
}

/// Files that were read in order, and the stop that ended this, if one did.
#[derive(Drop)]
pub struct KeptFiles {
    pub files: List<KeptFile>,
    pub stop: Option<Stop>,
}

/// Reads files in order, and keeps their bytes, up to the first that is missing, too long or not read.
pub fn read_files<F: Files>(alloc: Global, names: &[Text], files: &mut F) -> KeptFiles
    ensures { IsKept F.Files files.old files.new names.now result }
{
    let mut kept = List::begin(alloc);
    for name in names {
        if let Err(stop) = keep_file(alloc, name, files, &mut kept) {
            return KeptFiles {
                files: kept,
                stop: Some(stop),
            };
        }
    }
    KeptFiles {
        files: kept,
        stop: None,
    }
}

// Reads one file, and keeps its bytes.
fn keep_file<F: Files>(
    alloc: Global,
    name: &Text,
    files: &mut F,
    kept: &mut List<KeptFile>,
) -> Result<(), Stop>
    ensures read { ReadsTo F.Files files.old files.new (name.now ∷ []) (λ m. bytes_at m name.now)
        (λ body _. kept.new ≡ kept.old ++ kept_file name.now body ∷ []) result }
    ensures same { OnErr result (kept.new ≡ kept.old) }
{
    match read_bytes(alloc, name, files) {
        Ok(body) => match add_file(alloc, name, body, kept) {
            Ok(()) => Ok(()),
            Err(NoMemory) => Err(Stop::NoMemory),
        },
        Err(stop) => Err(stop),
    }
}

fn add_file(
    alloc: Global,
    name: &Text,
    body: Blob,
    kept: &mut List<KeptFile>,
) -> Result<(), NoMemory>
    ensures ok { OnOk result (kept.new ≡ kept.old ++ kept_file name.now body ∷ []) }
    ensures same { OnErr result (kept.new ≡ kept.old) }
{
    let name = Text::copy_of(alloc, name.as_str())?;
    kept.add(KeptFile { name, body })
}

/// The messages in kept files, which may be followed by a stop. The first refusal of a file comes before it.
pub fn kept_messages<'a>(
    alloc: Global,
    files: &'a [KeptFile],
    stop: Option<Stop>,
) -> Result<Messages<'a>, Stop>
    ensures ok { IfOk result (λ messages. (each message_in files.now ≡ Ok (map value_of messages)) × (stop ≡ None)) }
    ensures stopped { IfErr result (IsFirstStop files.now stop) }
{
    match messages_in(alloc, files) {
        Ok(messages) => match stop {
            Some(stop) => Err(stop),
            None => Ok(messages),
        },
        Err(stop) => Err(stop),
    }
}

// The messages in files, up to the first that is refused.
fn messages_in<'a>(alloc: Global, files: &'a [KeptFile]) -> Result<Messages<'a>, Stop>
    ensures ok { IfOk result (λ messages. each message_in files.now ≡ Ok (map value_of messages)) }
    ensures stopped { IfErr result (IsStop (each message_in files.now)) }
    ensures cause { IfErr result IsOfInput }
{
    let mut messages = Messages::begin(alloc);
    for file in files {
        match checked_message(alloc, &file.name, file.body.as_slice()) {
            Ok(message) => {
                if let Err(NoMemory) = messages.add(message) {
                    return Err(Stop::NoMemory);
                }
            }
            Err(stop) => return Err(stop),
        }
    }
    Ok(messages)
}
