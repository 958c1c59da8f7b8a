//! The text of a message, and its length.
ghost use Rattle.std.specs.Prelude.{◌≡◌, ◌≤◌, IfOk, IfErr, OnOk, length};
ghost use Rattle.outside.specs.Causes.{Counted, NeverFails};
ghost use Rattle.outside.specs.Streams.{appended};
ghost use Rattle.otlp_msg.specs.Checked.{value_of};
ghost use Rattle.shown.specs.ShowText.{show_text};
ghost use Rattle.show_text.specs.Showing.{show_limit, IsShowFault, TookPart, PartBy, ShowCounted, IsNoWriteFault};

use crate::{ShowFault, put_records};
use entry_text::{Direct, Measured};
use line_text::{Pen, TextLength};
use otlp_msg::Checked;
use outside::{IoFault, Sink};
use pb_wire::NoMemory;
use std::alloc::Global;

/// The greatest number of bytes of a text that is shown.
pub const SHOW_LIMIT: u128 = 1_073_741_824;

/// The length of a message's text, in bytes. Each entry of the dictionary is measured once, and the text is not written out. A
/// length of 2^128 - 1 or more counts as out of memory.
pub fn show_len(alloc: Global, message: &Checked<'_>) -> Result<u128, NoMemory>
    ensures { IfOk result (λ len. len ≡ length (show_text (value_of message.now))) }
{
    let message = message.message();
    let texts = Measured::of(alloc, &message.dictionary)?;
    let mut len = TextLength::begin();
    put_records(&texts, &mut len, &mut (), message.records.as_slice());
    len.exact()
}

/// Writes the text of a message.
///
/// # Errors
///
/// `ShowLimit` with the length of the text, exactly where it is more than `SHOW_LIMIT`: nothing is written. `WriteFault` only
/// where the sink's count of faults rose: a part of the text from its front was taken, but not all. Or out of memory.
pub fn show<W: Sink>(alloc: Global, message: &Checked<'_>, out: &mut W) -> Result<(), ShowFault>
    ensures ok { OnOk result (W.taken out.new ≡ appended (W.taken out.old) (show_text (value_of message.now))) }
    ensures fits { OnOk result (length (show_text (value_of message.now)) ≤ show_limit) }
    ensures refused { IfErr result (IsShowFault (show_text (value_of message.now))) }
    ensures part { IfErr result (TookPart (show_text (value_of message.now)) (W.taken out.old) (W.taken out.new)) }
    ensures cause { ShowCounted (W.faults out.old) (W.faults out.new) result }
    ensures sound { W.sound out.old → W.sound out.new × IfErr result IsNoWriteFault }
{
    let len = show_len(alloc, message)?;
    if len > SHOW_LIMIT {
        return Err(ShowFault::ShowLimit { len });
    }
    match write_text(alloc, message, out) {
        Ok(()) => Ok(()),
        Err(IoFault::Failed) => Err(ShowFault::WriteFault),
        Err(IoFault::NoMemory) => Err(ShowFault::NoMemory),
    }
}

// Writes the text of a message, however long it is.
fn write_text<W: Sink>(alloc: Global, message: &Checked<'_>, out: &mut W) -> Result<(), IoFault>
    ensures ok { OnOk result (W.taken out.new ≡ appended (W.taken out.old) (show_text (value_of message.now))) }
    ensures refused { IfErr result (PartBy (show_text (value_of message.now)) (W.taken out.old) (W.taken out.new)) }
    ensures cause { Counted (W.faults out.old) (W.faults out.new) result }
    ensures sound { W.sound out.old → W.sound out.new × NeverFails result }
{
    let mut pen = Pen::begin(alloc)?;
    let message = message.message();
    let texts = Direct::of(alloc, &message.dictionary);
    put_records(&texts, &mut pen, out, message.records.as_slice());
    pen.finish(out)
}
