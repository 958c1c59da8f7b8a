//! The command `show`. Its text is written as it is found, and is never held whole.
ghost use Rattle.otlp_msg.specs.Checked.{value_of};
ghost use Rattle.collector.specs.Carrying.{IsCarried};
ghost use Rattle.collector.specs.ShowAnswer.{message_shown, shown_in};
ghost use Rattle.collector.specs.ShowSteps.{IsStreamed};

use crate::deliver::write_stop;
use crate::reading::{checked_message, read_bytes};
use crate::{Stop, ToolRefusal};
use commands::ToolPlan;
use otlp_msg::Checked;
use outside::{Files, Sink};
use pb_wire::Text;
use show_text::{ShowFault, show};
use std::alloc::Global;

/// Reads what `show IN` shows, and writes it to `out`.
pub fn carry_show<F: Files, O: Sink>(
    alloc: Global,
    file: &Text,
    files: &mut F,
    out: &mut O,
) -> Result<(), Stop>
    ensures { IsCarried F.Files O.Sink files.old files.new out.old out.new (ToolPlan.Show file.now) result }
{
    match read_bytes(alloc, file, files) {
        Ok(body) => show_bytes(alloc, file, body.as_slice(), out),
        Err(stop) => Err(stop),
    }
}

// The same from the bytes of the file.
fn show_bytes<O: Sink>(alloc: Global, file: &Text, body: &[u8], out: &mut O) -> Result<(), Stop>
    ensures { IsStreamed O.Sink out.old out.new (shown_in file.now body.now) result }
{
    match checked_message(alloc, file, body) {
        Ok(message) => show_message(alloc, &message, out),
        Err(stop) => Err(stop),
    }
}

// What a message means, as text.
fn show_message<O: Sink>(alloc: Global, message: &Checked<'_>, out: &mut O) -> Result<(), Stop>
    ensures { IsStreamed O.Sink out.old out.new (message_shown (value_of message.now)) result }
{
    match show(alloc, message, out) {
        Ok(()) => Ok(()),
        Err(ShowFault::ShowLimit { len }) => Err(Stop::Refused(ToolRefusal::Limit { size: len })),
        Err(ShowFault::WriteFault) => Err(write_stop(alloc, "standard output")),
        Err(ShowFault::NoMemory) => Err(Stop::NoMemory),
    }
}
