//! The command `canon`.
ghost use Rattle.std.specs.Prelude.{◌≡◌, [], ◌∷◌, IfOk, IsOkAnd};
ghost use Rattle.otlp_msg.specs.Checked.{value_of};
ghost use Rattle.otlp_msg.specs.Message.{message_of};
ghost use Rattle.split_merge.specs.Canonical.{meaning};
ghost use Rattle.collector.specs.CanonAnswer.{canon_in, canon_file};
ghost use Rattle.collector.specs.Delivery.{names_of};
ghost use Rattle.collector.specs.Messages.{accepted};
ghost use Rattle.collector.specs.Rebuilt.{IsRebuilt};
ghost use Rattle.collector.specs.RunSteps.{IsComputed, IsPerformed};

use crate::building::output_of_built;
use crate::reading::{checked_message, read_bytes};
use crate::{Output, Stop};
use commands::ToolPlan;
use otlp_msg::Checked;
use outside::{Files, Seeds};
use pb_wire::Text;
use split_merge::canon;
use std::alloc::Global;

/// What `canon IN OUT` writes.
pub fn perform_canon<F: Files, M: Seeds>(
    alloc: Global,
    file: &Text,
    target: &Text,
    files: &mut F,
    seeds: &mut M,
) -> Result<Output, Stop>
    ensures { IsPerformed F.Files files.old files.new (ToolPlan.Canon file.now target.now) result }
{
    match read_bytes(alloc, file, files) {
        Ok(body) => canon_in(alloc, file, body.as_slice(), target, seeds),
        Err(stop) => Err(stop),
    }
}

// The same from the bytes of the file.
fn canon_in<M: Seeds>(
    alloc: Global,
    file: &Text,
    body: &[u8],
    target: &Text,
    seeds: &mut M,
) -> Result<Output, Stop>
    ensures computed { IsComputed (canon_in file.now target.now body.now) result }
    ensures rebuilt { IfOk result (λ output. IsOkAnd (accepted file.now (message_of body.now)) (λ m. IsRebuilt (meaning m) target.now output)) }
    ensures targets { IfOk result (λ output. names_of output.files ≡ target.now ∷ []) }
{
    match checked_message(alloc, file, body) {
        Ok(message) => canon_file(alloc, target, &message, seeds),
        Err(stop) => Err(stop),
    }
}

// The canonical bytes of a message, as one file.
fn canon_file<M: Seeds>(
    alloc: Global,
    target: &Text,
    message: &Checked<'_>,
    seeds: &mut M,
) -> Result<Output, Stop>
    ensures computed { IsComputed (canon_file target.now (value_of message.now)) result }
    ensures rebuilt { IfOk result (IsRebuilt (meaning (value_of message.now)) target.now) }
    ensures targets { IfOk result (λ output. names_of output.files ≡ target.now ∷ []) }
{
    output_of_built(alloc, target, canon(alloc, message, seeds))
}
