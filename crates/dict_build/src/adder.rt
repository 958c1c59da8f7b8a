//! Profiles of messages, added one by one to a draft.
ghost use Rattle.std.specs.Prelude.{◌≡◌, ◌+◌, ◌≤◌, IfOk, IfErr, OnOk, OnErr};
ghost use Rattle.meaning.specs.Message.{tables_in};
ghost use Rattle.otlp_msg.specs.Checked.{value_of};
ghost use Rattle.otlp_msg.specs.Message.{message_limit, records_of};
ghost use Rattle.renumber.specs.Entries.{entry_count};
ghost use Rattle.draft_contents.specs.Draft.{AreAcceptedFor, AreBytesOf, IsFaultOfPlaced, StandsForSome, StandsWithin};
ghost use Rattle.draft_contents.specs.Marks.{GoesOn, IsMark};
ghost use Rattle.draft_contents.specs.Singles.{IsPosition, alone};
ghost use Rattle.dict_build.specs.Adders.{adding};
ghost use Rattle.dict_build.specs.States.{IsEmptyMemo};

use crate::draft::Draft;
use crate::state::{AdderState, add_at, begin_state, empty_memo, restart, turn_to};
use draft_contents::{BuildFault, DraftMark, Joining, copied_bytes};
use otlp_msg::{Checked, ProfilePos};
use outside::Seeds;
use pb_wire::{Blob, NoMemory};
use renumber::Memo;
use std::alloc::Global;
use std::marker::Model;
use std::sync::ledger::Ledger;
use tables::Steps;

/// Profiles of messages, added one by one to a draft. One memo serves all profiles of a message, so that adding one costs what it
/// has and what it newly uses, never the length of the message's tables.
#[derive(Drop)]
pub struct ProfileAdder<'s, 'a, M: Seeds> {
    state: AdderState<'s, 'a, M::H>,
}

impl<'s, 'a, M: Seeds> Model for ProfileAdder<'s, 'a, M> {
    ghost use Rattle.std.specs.Coded.{codes};
    ghost use Rattle.any_value.specs.Codes.{any_code};
    ghost use Rattle.dict_build.specs.Adders.{Adding};
    ghost use Rattle.dict_build.specs.States.{IsAdderState, seen};

    ghost Value = { Adding };

    ghost coded = { Prim.hlevel (codes, any_code) };

    ghost view = { λ a. seen a.state };

    ghost invariant = { λ a. IsAdderState a.state };
}

impl<'s, 'a, M: Seeds> ProfileAdder<'s, 'a, M> {
    /// Begins to add profiles of a message to a draft.
    ///
    /// # Errors
    ///
    /// Out of memory. The draft is handed back as it was.
    pub fn begin(
        alloc: Global,
        draft: Draft<M>,
        message: &'s Checked<'a>,
    ) -> Result<ProfileAdder<'s, 'a, M>, (Draft<M>, NoMemory)>
        ensures ok { IfOk result (λ a. a ≡ adding draft draft (value_of message.now)) }
        ensures same { IfErr result (λ back. back.0 ≡ draft) }
        ensures stands { StandsForSome draft }
    {
        let start = draft.mark();
        match empty_memo(alloc, message) {
            Ok(memo) => Ok(ProfileAdder::begin_at(draft, start, message, memo)),
            Err(stop) => Err((draft, stop)),
        }
    }

    // The same, with a mark of the draft and a memo for the message.
    fn begin_at(
        draft: Draft<M>,
        start: DraftMark,
        message: &'s Checked<'a>,
        memo: Memo,
    ) -> ProfileAdder<'s, 'a, M>
        requires mark { IsMark start draft }
        requires memo { IsEmptyMemo (value_of message.now) memo }
        ensures { result ≡ adding draft draft (value_of message.now) }
    {
        let (tables, records) = draft.into_parts();
        ProfileAdder {
            state: begin_state(message, tables, records, start, memo),
        }
    }

    /// Goes on with another message. The draft stays.
    ///
    /// # Errors
    ///
    /// Out of memory. All is as before.
    pub fn turn_to(&mut self, alloc: Global, message: &'s Checked<'a>) -> Result<(), NoMemory>
        ensures ok { OnOk result (self.new ≡ adding self.old.draft self.old.start (value_of message.now)) }
        ensures same { OnErr result (self.new ≡ self.old) }
    {
        let memo = empty_memo(alloc, message)?;
        turn_to(&mut self.state, message, memo);
        Ok(())
    }

    /// The draft becomes what it was at the start. It takes no memory, and time for what was added since.
    pub fn restart(&mut self)
        ensures { self.new ≡ adding self.old.start self.old.start self.old.message }
    {
        restart(&mut self.state);
    }

    /// Adds the profile at a position of the message, joined as `joining` says, if the whole then has at most `limit` bytes. The draft
    /// goes on from what it was. It counts at most as many table steps as the message's seven tables have entries, plus 8.
    ///
    /// # Errors
    ///
    /// `OutputLimit` where the whole would have more bytes than the limit, with their number; or out of memory. All is as before.
    pub fn add<L: Ledger>(
        &mut self,
        alloc: Global,
        pos: ProfilePos,
        joining: Joining,
        limit: u64,
        steps: &mut Steps<L>,
    ) -> Result<(), BuildFault>
        requires position { IsPosition (records_of self.old.message) pos }
        requires limit { limit ≤ message_limit }
        ensures ok { OnOk result (StandsWithin limit joining self.old.draft self.new.draft (alone self.old.message pos)) }
        ensures fault { IfErr result (IsFaultOfPlaced limit joining self.old.draft (alone self.old.message pos)) }
        ensures kept { OnOk result (self.new ≡ adding self.new.draft self.old.start self.old.message) }
        ensures same { OnErr result (self.new ≡ self.old) }
        ensures grown { GoesOn self.old.draft self.new.draft }
        ensures stands { StandsForSome self.old.draft }
        ensures steps { steps.new ≤ steps.old + entry_count (tables_in self.old.message.1.0) + 8 }
    {
        add_at(&mut self.state, alloc, pos, joining, limit, steps)
    }

    /// The canonical bytes of what the draft stands for, while it stays. They are accepted as a message with this meaning.
    ///
    /// # Errors
    ///
    /// Out of memory.
    pub fn text(&self, alloc: Global) -> Result<Blob, NoMemory>
        ensures ok { IfOk result (AreBytesOf self.now.draft) }
        ensures accepted { IfOk result (AreAcceptedFor self.now.draft) }
        ensures stands { StandsForSome self.now.draft }
    {
        let bytes = copied_bytes(alloc, self.state.walk.tables(), &self.state.records)?;
        Ok(bytes)
    }

    /// The draft, handed back. It takes no memory.
    pub fn into_draft(self) -> Draft<M>
        ensures { result ≡ self.entry.draft }
    {
        let AdderState { walk, records, .. } = self.state;
        Draft::of_parts(walk.into_tables(), records)
    }
}
