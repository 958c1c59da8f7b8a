//! The command `merge`.
ghost use Rattle.std.specs.Prelude.{◌≡◌, [], ◌∷◌, List, IfOk};
ghost use Rattle.otlp_msg.specs.Message.{Message, message_of};
ghost use Rattle.split_merge.specs.Merged.{IsMerge, joined_meaning};
ghost use Rattle.collector.specs.Delivery.{names_of};
ghost use Rattle.collector.specs.MergeAnswer.{Gains, merged_file};
ghost use Rattle.collector.specs.Messages.{accepted, each, message_at};
ghost use Rattle.collector.specs.Rebuilt.{IsRebuilt};
ghost use Rattle.collector.specs.RunSteps.{ComputesTo, IsComputed, IsPerformed, ReadsTo};

use crate::building::output_of_built;
use crate::reading::{checked_message, read_bytes};
use crate::{Output, Stop};
use commands::{Texts, ToolPlan};
use outside::{Files, Seeds};
use pb_wire::{NoMemory, Text};
use split_merge::Merging;
use std::alloc::Global;

/// What `merge OUT IN..` writes.
pub fn perform_merge<F: Files, M: Seeds>(
    alloc: Global,
    target: &Text,
    names: &Texts,
    files: &mut F,
    seeds: &mut M,
) -> Result<Output, Stop>
    ensures { IsPerformed F.Files files.old files.new (ToolPlan.Merge target.now names.now) result }
{
    let mut merging = Merging::begin(alloc, seeds)?;
    match join_files(alloc, names.as_slice(), files, &mut merging) {
        Ok(()) => merged_file(alloc, target, merging),
        Err(stop) => Err(stop),
    }
}

// Joins the messages in files in order, up to the first that is missing, refused or not read.
fn join_files<F: Files, M: Seeds>(
    alloc: Global,
    names: &[Text],
    files: &mut F,
    merging: &mut Merging<M>,
) -> Result<(), Stop>
    ensures { ReadsTo F.Files files.old files.new names.now (λ m. each (message_at m) names.now)
        (λ messages _. Gains (IsMerge merging.old) (IsMerge merging.new) messages) result }
{
    for name in names {
        if let Err(stop) = join_file(alloc, name, files, merging) {
            return Err(stop);
        }
    }
    Ok(())
}

// Joins the message in one file. Of what was read nothing is kept.
fn join_file<F: Files, M: Seeds>(
    alloc: Global,
    name: &Text,
    files: &mut F,
    merging: &mut Merging<M>,
) -> Result<(), Stop>
    ensures { ReadsTo F.Files files.old files.new (name.now ∷ []) (λ m. message_at m name.now)
        (λ message _. Gains (IsMerge merging.old) (IsMerge merging.new) (message ∷ [])) result }
{
    match read_bytes(alloc, name, files) {
        Ok(body) => join_bytes(alloc, name, body.as_slice(), merging),
        Err(stop) => Err(stop),
    }
}

// The same from the bytes of the file.
fn join_bytes<M: Seeds>(
    alloc: Global,
    name: &Text,
    body: &[u8],
    merging: &mut Merging<M>,
) -> Result<(), Stop>
    ensures { ComputesTo (accepted name.now (message_of body.now))
        (λ message _. Gains (IsMerge merging.old) (IsMerge merging.new) (message ∷ [])) result }
{
    match checked_message(alloc, name, body) {
        Ok(message) => match merging.add(alloc, &message) {
            Ok(()) => Ok(()),
            Err(NoMemory) => Err(Stop::NoMemory),
        },
        Err(stop) => Err(stop),
    }
}

// The canonical bytes of the joined messages, as one file.
fn merged_file<M: Seeds>(alloc: Global, target: &Text, merging: Merging<M>) -> Result<Output, Stop>
    ensures computed { (messages : List Message) → IsMerge merging messages → IsComputed (merged_file target.now messages) result }
    ensures rebuilt { (messages : List Message) → IsMerge merging messages → IfOk result (IsRebuilt (joined_meaning messages) target.now) }
    ensures targets { IfOk result (λ output. names_of output.files ≡ target.now ∷ []) }
{
    output_of_built(alloc, target, merging.finish())
}
