//! A message under construction.
ghost use Rattle.std.specs.Prelude.{◌≡◌, ◌+◌, ◌≤◌, [], IfOk, IfErr, OnOk, OnErr};
ghost use Rattle.meaning.specs.Message.{tables_in};
ghost use Rattle.otlp_msg.specs.Checked.{value_of};
ghost use Rattle.otlp_msg.specs.Message.{message_limit, records_of};
ghost use Rattle.renumber.specs.Entries.{entry_count};
ghost use Rattle.draft_contents.specs.Contents.{contents};
ghost use Rattle.draft_contents.specs.Draft.{AreAcceptedFor, AreBytesOf, IsFaultOfJoined, IsFaultOfPlaced, StandsFor, StandsForJoined, StandsForPlaced, StandsForSome};
ghost use Rattle.draft_contents.specs.Marks.{CanBeCutTo, GoesOn, IsMark, cut_to};
ghost use Rattle.draft_contents.specs.Meanings.{Meaning, size_of};
ghost use Rattle.draft_contents.specs.Singles.{IsPosition, alone, joining_if};
ghost use Rattle.draft_contents.specs.declared.incoming.Joining.TheVariants as how;

use draft_contents::{
    BuildFault, DraftMark, Incoming, Joining, add_profile_at, add_within_limit, copied_bytes,
    cut_back, joining_if, mark_of, whole_bytes, whole_len,
};
use draft_records::Records;
use key_tables::{KeyTables, begin_tables};
use otlp_msg::{Checked, ProfilePos};
use outside::Seeds;
use pb_wire::{Blob, NoMemory};
use std::alloc::Global;
use std::marker::Model;
use std::sync::ledger::Ledger;
use tables::Steps;

/// A message under construction: the parts of its resource records, spelled with their new indexes, and the tables that these
/// point into. It stands for the meaning of these records, and can be finished at any time. It can go back to a mark, and a mark
/// stays one while the draft goes on from it.
#[derive(Drop)]
pub struct Draft<M: Seeds> {
    tables: KeyTables<M::H>,
    records: Records,
}

impl<M: Seeds> Model for Draft<M> {
    ghost use Rattle.draft_contents.specs.Contents.{Contents, contents};
    ghost use Rattle.draft_contents.specs.Draft.{StandsForSome};

    ghost Value = { Contents };

    ghost view = { λ d. contents d.tables d.records };

    ghost invariant = { λ d. StandsForSome (contents d.tables d.records) };
}

impl<M: Seeds> Draft<M> {
    /// A draft of no records.
    ///
    /// # Errors
    ///
    /// Out of memory.
    pub fn begin(alloc: Global, seeds: &mut M) -> Result<Draft<M>, NoMemory>
        ensures { IfOk result (λ d. StandsFor d []) }
    {
        let tables = begin_tables(alloc, seeds)?;
        Ok(Draft {
            tables,
            records: Records::begin(alloc),
        })
    }

    /// The number of bytes of the draft, if it were finished now. It takes no memory.
    pub fn size(&self) -> u64
        ensures is { (ms : Meaning) → StandsFor self.now ms → result ≡ size_of ms }
        ensures stands { StandsForSome self.now }
        ensures most { result ≤ message_limit }
        ensures empty { StandsFor self.now [] → result ≡ 16 }
    {
        whole_len(&self.tables, self.records.text_len())
    }

    /// Joins a message to the draft, whose meaning becomes the seam of both: if the last resource record and the message's first
    /// have equal heads, they become one, and in it so do the last scope record and the first, if their heads are equal. The
    /// tables gain what is new in the message. It counts at most as many table steps as the message's seven tables have entries,
    /// plus 8. Whatever the answer, the draft goes on from what it was, so its marks stay marks.
    ///
    /// # Errors
    ///
    /// `OutputLimit` where the whole would have more bytes than a message may have, with their number; or out of memory.
    /// The draft is as before.
    pub fn add_message<L: Ledger>(
        &mut self,
        alloc: Global,
        message: &Checked<'_>,
        steps: &mut Steps<L>,
    ) -> Result<(), BuildFault>
        ensures ok { OnOk result (StandsForJoined self.old self.new (value_of message.now)) }
        ensures fault { IfErr result (IsFaultOfJoined self.old (value_of message.now)) }
        ensures same { OnErr result (self.new ≡ self.old) }
        ensures grown { GoesOn self.old self.new }
        ensures stands { StandsForSome self.old }
        ensures steps { steps.new ≤ steps.old + entry_count (tables_in (value_of message.now).1.0) + 8 }
    {
        let found = message.message();
        add_within_limit(
            &mut self.tables,
            &mut self.records,
            alloc,
            &found.dictionary,
            &Incoming::Records(found.records.as_slice()),
            steps,
        )
    }

    /// Adds the profile at a position of a message, with its heads. With `fresh` it begins a resource record of its own. Otherwise the
    /// meaning becomes the seam with a message of this profile alone: if the last resource record has the same head as the resource
    /// record at the position, and the last scope record in it the same head as the scope record there, the profile goes there; if
    /// only the resource record has the same head, a scope record begins there; else a resource record begins. The tables gain what is
    /// new in the profile. Each call costs the length of the message's tables: `ProfileAdder` adds several profiles of a message. It
    /// counts at most as many table steps as the message's seven tables have entries, plus 8. Whatever the answer, the draft goes on
    /// from what it was, so its marks stay marks.
    ///
    /// # Errors
    ///
    /// `OutputLimit` where the whole would have more bytes than a message may have, with their number; or out of memory.
    /// The draft is as before.
    pub fn add_profile<L: Ledger>(
        &mut self,
        alloc: Global,
        message: &Checked<'_>,
        pos: ProfilePos,
        fresh: bool,
        steps: &mut Steps<L>,
    ) -> Result<(), BuildFault>
        requires { IsPosition (records_of (value_of message.now)) pos }
        ensures ok { OnOk result (StandsForPlaced (joining_if fresh) self.old self.new (alone (value_of message.now) pos)) }
        ensures fault { IfErr result (IsFaultOfPlaced message_limit (joining_if fresh) self.old (alone (value_of message.now) pos)) }
        ensures same { OnErr result (self.new ≡ self.old) }
        ensures grown { GoesOn self.old self.new }
        ensures stands { StandsForSome self.old }
        ensures steps { steps.new ≤ steps.old + entry_count (tables_in (value_of message.now).1.0) + 8 }
    {
        add_profile_at(
            &mut self.tables,
            &mut self.records,
            alloc,
            message,
            pos,
            joining_if(fresh),
            steps,
        )
    }

    /// Adds the profile at a position of a message in a scope record of its own, with the head of the scope record at the position:
    /// under the last resource record if that has the same head as the resource record at the position, and else in a resource record
    /// of its own, too. The tables, the cost, the steps and the marks are as in `add_profile`: `ProfileAdder` adds several profiles of
    /// a message.
    ///
    /// # Errors
    ///
    /// `OutputLimit` where the whole would have more bytes than a message may have, with their number; or out of memory.
    /// The draft is as before.
    pub fn add_scope<L: Ledger>(
        &mut self,
        alloc: Global,
        message: &Checked<'_>,
        pos: ProfilePos,
        steps: &mut Steps<L>,
    ) -> Result<(), BuildFault>
        requires { IsPosition (records_of (value_of message.now)) pos }
        ensures ok { OnOk result (StandsForPlaced how.Scope self.old self.new (alone (value_of message.now) pos)) }
        ensures fault { IfErr result (IsFaultOfPlaced message_limit how.Scope self.old (alone (value_of message.now) pos)) }
        ensures same { OnErr result (self.new ≡ self.old) }
        ensures grown { GoesOn self.old self.new }
        ensures stands { StandsForSome self.old }
        ensures steps { steps.new ≤ steps.old + entry_count (tables_in (value_of message.now).1.0) + 8 }
    {
        add_profile_at(
            &mut self.tables,
            &mut self.records,
            alloc,
            message,
            pos,
            Joining::Scope,
            steps,
        )
    }

    /// The tables and the records, of which `of_parts` makes the draft again.
    pub(crate) fn into_parts(self) -> (KeyTables<M::H>, Records)
        ensures { contents result.0 result.1 ≡ self }
    {
        let Draft { tables, records } = self;
        (tables, records)
    }

    /// The draft with these tables and records.
    pub(crate) fn of_parts(tables: KeyTables<M::H>, records: Records) -> Draft<M>
        requires { StandsForSome (contents tables records) }
        ensures { result ≡ contents tables records }
    {
        Draft { tables, records }
    }

    /// A mark of the draft as it is, for `back_to`. It takes no memory.
    pub fn mark(&self) -> DraftMark
        ensures { IsMark result self.now }
    {
        mark_of(&self.tables, &self.records)
    }

    /// Keeps as many keys and parts as the mark counts. Where the draft goes on from the contents of the mark, it is these again
    /// (`draft_contents::laws::marks_lead_back`). It takes no memory.
    pub fn back_to(&mut self, mark: DraftMark)
        requires { CanBeCutTo mark self.old }
        ensures { self.new ≡ cut_to mark self.old }
    {
        cut_back(&mut self.tables, &mut self.records, mark);
    }

    /// The canonical bytes of what the draft stands for, while the draft stays. They are accepted as a message with this meaning.
    ///
    /// # Errors
    ///
    /// Out of memory.
    pub fn text(&self, alloc: Global) -> Result<Blob, NoMemory>
        ensures ok { IfOk result (AreBytesOf self.now) }
        ensures accepted { IfOk result (AreAcceptedFor self.now) }
        ensures stands { StandsForSome self.now }
    {
        let bytes = copied_bytes(alloc, &self.tables, &self.records)?;
        Ok(bytes)
    }

    /// The canonical bytes of what the draft stands for. They are accepted as a message with this meaning. The memory of the
    /// records is used for them.
    ///
    /// # Errors
    ///
    /// Out of memory. The draft is handed back as it was.
    pub fn finish(self) -> Result<Blob, (Draft<M>, NoMemory)>
        ensures ok { IfOk result (AreBytesOf self) }
        ensures accepted { IfOk result (AreAcceptedFor self) }
        ensures stands { StandsForSome self }
        ensures same { IfErr result (λ back. back.0 ≡ self) }
    {
        let Draft { tables, records } = self;
        match whole_bytes(tables, records) {
            Ok(bytes) => Ok(bytes),
            Err((tables, records)) => Err((Draft { tables, records }, NoMemory)),
        }
    }
}
