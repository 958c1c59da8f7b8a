//! The canonical bytes of several messages as one.
ghost use Rattle.std.specs.Prelude.{◌≡◌, Ok, IfOk, IfErr, map};
ghost use Rattle.otlp_msg.specs.Checked.{value_of};
ghost use Rattle.split_merge.specs.Canonical.{IsAcceptedAs, IsBuildFault, IsOnlyOf};
ghost use Rattle.split_merge.specs.Merged.{joined_meaning, merged};

use crate::Merging;
use dict_build::BuildFault;
use otlp_msg::Messages;
use outside::Seeds;
use pb_wire::Blob;
use std::alloc::Global;

/// The canonical bytes of messages as one, in their order and with one dictionary. Where the last resource record of one and the
/// first of the next have equal heads they are one record, and so are the scope records that meet in it.
///
/// # Errors
///
/// `OutputLimit` where some prefix of the messages has more bytes than a message may have, with the size of the shortest such
/// prefix; or out of memory.
pub fn merge<M: Seeds>(
    alloc: Global,
    messages: &Messages<'_>,
    seeds: &mut M,
) -> Result<Blob, BuildFault>
    ensures ok { IfOk result (λ b. merged (map value_of messages.now) ≡ Ok b) }
    ensures refused { IfErr result (IsBuildFault (merged (map value_of messages.now))) }

    // What is written is accepted, with what the messages mean as one, and no other meaning that can be written has these bytes.
    ensures accepted { IfOk result (λ b. IsAcceptedAs b (joined_meaning (map value_of messages.now))) }
    ensures unique { IfOk result (λ b. IsOnlyOf b (joined_meaning (map value_of messages.now))) }
{
    let mut merging = Merging::begin(alloc, seeds)?;
    for message in messages.as_slice() {
        if let Err(stop) = merging.add(alloc, message) {
            return Err(stop.into());
        }
    }
    merging.finish()
}
