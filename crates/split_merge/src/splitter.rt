//! Messages that are cut into parts of at most so many bytes.
ghost use Rattle.std.specs.Prelude.{◌≡◌, ◌<◌, ◌≤◌, Ok, map, IfOk, IfErr, IfSome, OnOk, OnErr};
ghost use Rattle.otlp_msg.specs.Checked.{value_of};
ghost use Rattle.otlp_msg.specs.Message.{message_limit};
ghost use Rattle.split_merge.specs.Canonical.{IsAcceptedAs, IsBuildFault, IsOnlyOf};
ghost use Rattle.split_merge.specs.Splits.{after_next, next_of, next_part, splitting_of};

use crate::cutting::{Cutting, SplitInput, begin_cutting, next_bytes};
use crate::places::first_place;
use dict_build::BuildFault;
use otlp_msg::Messages;
use outside::Seeds;
use pb_wire::{Blob, NoMemory};
use std::alloc::Global;
use std::marker::Model;

/// Messages that are cut into parts. The parts are taken from the profiles of all messages in order: each is the longest prefix of
/// what is left whose canonical bytes are no more than a limit, or one profile where even one has more. In a part, neighbours that
/// come from one record stand under one head. Records without profiles are in no part.
#[derive(Drop)]
pub struct Splitter<'s, 'a, M: Seeds> {
    input: SplitInput<'s, 'a>,
    cutting: Option<Cutting<'s, 'a, M>>,
}

impl<'s, 'a, M: Seeds> Model for Splitter<'s, 'a, M> {
    ghost use Rattle.std.specs.Prelude.{◌≤◌};
    ghost use Rattle.std.specs.Coded.{codes};
    ghost use Rattle.otlp_msg.specs.Message.{message_limit};
    ghost use Rattle.split_merge.specs.Codes.{tree_code};
    ghost use Rattle.split_merge.specs.Cutting.{IsCuttingIfAny, next_if_any};
    ghost use Rattle.split_merge.specs.PartSteps.{messages_in, splitting_at};
    ghost use Rattle.split_merge.specs.Splits.{Splitting};

    ghost Value = { Splitting };

    ghost coded = { Prim.hlevel (codes, tree_code) };

    ghost view = { λ s. splitting_at s.input (next_if_any s.cutting) };

    ghost invariant = { λ s. (s.input.limit ≤ message_limit) × IsCuttingIfAny (messages_in s.input) s.cutting };
}

impl<'s, 'a, M: Seeds> Splitter<'s, 'a, M> {
    /// Begins to cut messages into parts of at most `limit` bytes, which is from 1 to what a message may have.
    ///
    /// # Errors
    ///
    /// Out of memory.
    pub fn begin(
        alloc: Global,
        limit: u64,
        messages: &'s Messages<'a>,
        seeds: &mut M,
    ) -> Result<Splitter<'s, 'a, M>, NoMemory>
        requires some { 0 < limit }
        requires most { limit ≤ message_limit }
        ensures { IfOk result (λ s. s ≡ splitting_of limit (map value_of messages.now)) }
    {
        let input = SplitInput {
            messages: messages.as_slice(),
            limit,
        };
        let first = first_place(input.messages)?;
        match first {
            Some(place) => {
                let cutting = begin_cutting(alloc, &input, place, seeds)?;
                Ok(Splitter {
                    input,
                    cutting: Some(cutting),
                })
            }
            None => Ok(Splitter {
                input,
                cutting: None,
            }),
        }
    }

    /// The canonical bytes of the next part; nothing after the last. A profile that did not fit is added again where it opens the next
    /// part.
    ///
    /// # Errors
    ///
    /// `OutputLimit` where the part, which is one profile, has more bytes than a message may have, with their number; or out of memory.
    /// The next call answers the same part again.
    pub fn next(&mut self, alloc: Global) -> Result<Option<Blob>, BuildFault>
        ensures ok { IfOk result (λ part. next_of self.old ≡ Ok part) }
        ensures refused { IfErr result (IsBuildFault (next_of self.old)) }
        ensures gone { OnOk result (self.new ≡ after_next self.old) }
        ensures same { OnErr result (self.new ≡ self.old) }

        // What is written is accepted, with the meaning of the part, and no other meaning that can be written has these bytes.
        ensures accepted { IfOk result (λ part. IfSome part (λ b. IsAcceptedAs b (next_part self.old))) }
        ensures unique { IfOk result (λ part. IfSome part (λ b. IsOnlyOf b (next_part self.old))) }
    {
        match &mut self.cutting {
            Some(cutting) => next_bytes(cutting, alloc, &self.input),
            None => Ok(None),
        }
    }
}
