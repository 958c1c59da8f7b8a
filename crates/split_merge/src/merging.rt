//! Messages that are joined one after the other.
ghost use Rattle.std.specs.Prelude.{◌≡◌, ◌<◌, [], List, Ok, None, IfOk, IfErr, OnOk, OnErr};
ghost use Rattle.otlp_msg.specs.Checked.{value_of};
ghost use Rattle.otlp_msg.specs.Message.{Message};
ghost use Rattle.split_merge.specs.Canonical.{IsAcceptedAs, IsBuildFault, IsOnlyOf};
ghost use Rattle.split_merge.specs.Merged.{IsMerge, MergesOneMore, joined_meaning, merge, merged};

use dict_build::{BuildFault, Draft};
use otlp_msg::Checked;
use outside::Seeds;
use pb_wire::{Blob, NoMemory};
use std::alloc::Global;
use std::marker::{Brand, Model};
use std::sync::ledger::{Blank, Ledger};
use tables::Steps;

/// Messages that are joined one after the other into one. No message has to stay once it is added. It is seen as its draft and the
/// size at which the messages became too many, where they did.
#[derive(Drop)]
pub struct Merging<M: Seeds> {
    draft: Draft<M>,
    excess: Option<u64>,
}

impl<M: Seeds> Model for Merging<M> {
    ghost use Rattle.split_merge.specs.Merged.{Merge, merge};

    ghost Value = { Merge };

    ghost view = { λ g. merge g.draft g.excess };
}

impl<M: Seeds> Merging<M> {
    /// No messages.
    ///
    /// # Errors
    ///
    /// Out of memory.
    pub fn begin(alloc: Global, seeds: &mut M) -> Result<Merging<M>, NoMemory>
        ensures { IfOk result (λ g. IsMerge g []) }
    {
        let draft = Draft::begin(alloc, seeds)?;
        Ok(Merging {
            draft,
            excess: None,
        })
    }

    /// Joins one message more. Once the whole has become longer than a message may be, the size that `finish` tells stays, whatever
    /// is added.
    ///
    /// # Errors
    ///
    /// Out of memory. What was joined is as before.
    pub fn add(&mut self, alloc: Global, message: &Checked<'_>) -> Result<(), NoMemory>
        ensures ok { OnOk result (MergesOneMore self.old self.new (value_of message.now)) }
        ensures same { OnErr result (self.new ≡ self.old) }
    {
        if self.excess.is_some() {
            return Ok(());
        }
        match joined::<M, Brand>(&mut self.draft, alloc, message, Blank::new(1)) {
            Ok(excess) => {
                self.excess = excess;
                Ok(())
            }
            Err(stop) => Err(stop),
        }
    }

    /// The canonical bytes of the messages as one.
    ///
    /// # Errors
    ///
    /// `OutputLimit` where some prefix of the messages has more bytes than a message may have, with the size of the shortest such
    /// prefix; or out of memory.
    pub fn finish(self) -> Result<Blob, BuildFault>
        ensures ok { IfOk result (λ b. (messages : List Message) → IsMerge self messages → merged messages ≡ Ok b) }
        ensures refused { IfErr result (λ fault. (messages : List Message) → IsMerge self messages → IsBuildFault (merged messages) fault) }
        ensures accepted { IfOk result (λ b. (messages : List Message) → IsMerge self messages → IsAcceptedAs b (joined_meaning messages)) }
        ensures unique { IfOk result (λ b. (messages : List Message) → IsMerge self messages → IsOnlyOf b (joined_meaning messages)) }
    {
        let Merging { draft, excess } = self;
        match excess {
            None => finished(draft),
            Some(size) => Err(BuildFault::OutputLimit { size }),
        }
    }
}

// Joins a message to a draft, over this ledger. Where there would be too many bytes, their number is returned, and the draft is
// as before.
fn joined<M: Seeds, L: Ledger>(
    draft: &mut Draft<M>,
    alloc: Global,
    message: &Checked<'_>,
    blank: Blank,
) -> Result<Option<u64>, NoMemory>
    requires name { blank.name ≡ L.name }
    requires parts { blank.parts ≡ L.parts }
    requires some { 0 < blank.parts }
    ensures ok { IfOk result (λ excess. MergesOneMore (merge draft.old None) (merge draft.new excess) (value_of message.now)) }
    ensures same { OnErr result (draft.new ≡ draft.old) }
{
    let mut steps = Steps::<L>::begin(blank);
    match draft.add_message(alloc, message, &mut steps) {
        Ok(()) => Ok(None),
        Err(BuildFault::OutputLimit { size }) => Ok(Some(size)),
        Err(BuildFault::NoMemory) => Err(NoMemory),
    }
}

// The bytes of a draft to which all messages were joined.
fn finished<M: Seeds>(draft: Draft<M>) -> Result<Blob, BuildFault>
    ensures ok { IfOk result (λ b. (messages : List Message) → IsMerge (merge draft None) messages → merged messages ≡ Ok b) }
    ensures refused { IfErr result (λ fault. (messages : List Message) → IsMerge (merge draft None) messages → IsBuildFault (merged messages) fault) }
    ensures accepted { IfOk result (λ b. (messages : List Message) → IsMerge (merge draft None) messages → IsAcceptedAs b (joined_meaning messages)) }
    ensures unique { IfOk result (λ b. (messages : List Message) → IsMerge (merge draft None) messages → IsOnlyOf b (joined_meaning messages)) }
{
    match draft.finish() {
        Ok(bytes) => Ok(bytes),
        Err(_) => Err(BuildFault::NoMemory),
    }
}
