//! Reads a named file, and the message in it.
ghost use Rattle.std.specs.Prelude.{◌≡◌, [], ◌∷◌, Ok, IfOk, IfErr};
ghost use Rattle.otlp_msg.specs.Checked.{value_of};
ghost use Rattle.otlp_msg.specs.Message.{message_of};
ghost use Rattle.collector.specs.Messages.{bytes_in, bytes_at, accepted, stop_of_refusal};
ghost use Rattle.collector.specs.Causes.{IsStop, IsOfInput};
ghost use Rattle.collector.specs.RunSteps.{IsComputed, IsRead};

use crate::{Stop, ToolRefusal};
use otlp_msg::{Checked, MESSAGE_LIMIT, Refusal, read_message};
use outside::{Files, Got, IoFault};
use pb_wire::{Blob, NoMemory, Text};
use std::alloc::Global;

/// The bytes under a name, where there are no more than a message may have.
pub fn read_bytes<F: Files>(alloc: Global, name: &Text, files: &mut F) -> Result<Blob, Stop>
    ensures { IsRead F.Files files.old files.new (name.now ∷ []) (λ m. bytes_at m name.now) result }
{
    match files.read(alloc, name.as_str(), MESSAGE_LIMIT) {
        Ok(got) => bytes_of_got(alloc, name, got),
        Err(IoFault::Failed) => Err(Stop::Read {
            name: Text::copy_of(alloc, name.as_str())?,
        }),
        Err(IoFault::NoMemory) => Err(Stop::NoMemory),
    }
}

fn bytes_of_got(alloc: Global, name: &Text, got: Got) -> Result<Blob, Stop>
    ensures { IsComputed (bytes_in name.now got) result }
{
    match got {
        Got::Whole(body) => Ok(body),
        Got::Long { at_least } => Err(refused(alloc, name, &Refusal::Size { len: at_least })?),
        Got::Missing => Err(file_stop(alloc, name, Text::copy_of(alloc, "missing")?)?),
    }
}

/// The message in the bytes of a named file.
pub fn checked_message<'a>(alloc: Global, name: &Text, body: &'a [u8]) -> Result<Checked<'a>, Stop>
    ensures ok { IfOk result (λ c. accepted name.now (message_of body.now) ≡ Ok (value_of c)) }
    ensures stopped { IfErr result (IsStop (accepted name.now (message_of body.now))) }
    ensures cause { IfErr result IsOfInput }
{
    match read_message(alloc, body) {
        Ok(message) => Ok(message),
        Err(refusal) => Err(refused(alloc, name, &refusal)?),
    }
}

// The stop at a refusal of a named file.
fn refused(alloc: Global, name: &Text, refusal: &Refusal) -> Result<Stop, NoMemory>
    ensures stop { IfOk result (λ stop. stop ≡ stop_of_refusal name.now refusal.now) }
    ensures cause { IfOk result IsOfInput }
{
    if let Refusal::NoMemory = refusal {
        return Ok(Stop::NoMemory);
    }
    file_stop(alloc, name, refusal.text(alloc)?)
}

// The stop at a named file, with this text.
fn file_stop(alloc: Global, name: &Text, text: Text) -> Result<Stop, NoMemory>
    ensures { IfOk result (λ stop. stop ≡ Stop.Refused (ToolRefusal.File name.now text)) }
{
    let name = Text::copy_of(alloc, name.as_str())?;
    Ok(Stop::Refused(ToolRefusal::File { name, text }))
}
