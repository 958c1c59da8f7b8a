//! The state of an adder, and its steps.
ghost use Rattle.std.specs.Prelude.{◌≡◌, ◌+◌, ◌≤◌, [], ◌∷◌, IfOk, IfErr, OnOk, OnErr};
ghost use Rattle.schema.specs.Fits.{Fits};
ghost use Rattle.schema.specs.Messages.{resource_profiles, envelope};
ghost use Rattle.schema.specs.Prefix.{IsPrefix};
ghost use Rattle.meaning.specs.Canonical.{records as part_records};
ghost use Rattle.meaning.specs.Message.{tables_in};
ghost use Rattle.dict_rec.specs.declared.dictionary.Dictionary.{Dictionary};
ghost use Rattle.dict_rec.specs.Views.{dictionary_view};
ghost use Rattle.otlp_msg.specs.Checked.{value_of};
ghost use Rattle.otlp_msg.specs.Message.{dictionary_of, message_limit, records_of};
ghost use Rattle.renumber.specs.Entries.{IsPart, entry_count};
ghost use Rattle.renumber.specs.Marks.{WalkGoesOn};
ghost use Rattle.renumber.specs.Walk.{unmet};
ghost use Rattle.draft_contents.specs.Adding.{message_with};
ghost use Rattle.draft_contents.specs.Contents.{contents};
ghost use Rattle.draft_contents.specs.Draft.{IsFaultOfPlaced, StandsWithin};
ghost use Rattle.draft_contents.specs.Repeats.{AreKnown};
ghost use Rattle.draft_contents.specs.Marks.{GoesOn, IsMark};
ghost use Rattle.draft_contents.specs.Singles.{IsPosition, alone, coming, joining_of, record_alone};
ghost use Rattle.dict_build.specs.Adders.{adding};
ghost use Rattle.dict_build.specs.States.{HasGrown, IsAdderState, IsEmptyMemo, IsPut, draft_in, message_in, seen, start_in};

use draft_contents::{
    BuildFault, DraftMark, Incoming, Joining, KnownHeads, known_heads, put_incoming, single_at,
};
use draft_records::Records;
use key_tables::KeyTables;
use otlp_msg::{Checked, ProfilePos};
use pb_wire::NoMemory;
use renumber::{Memo, MemoMark, Walk, WalkMark};
use std::alloc::Global;
use std::hash::BuildHasher;
use std::sync::ledger::Ledger;
use tables::Steps;

/// A message, the walk over it with the tables of a draft, the draft's records, the mark of the start, and the position of the profile
/// of this message with which the draft ends, if it does.
#[derive(Drop)]
pub(crate) struct AdderState<'s, 'a, S: BuildHasher> {
    pub(crate) message: &'s Checked<'a>,
    pub(crate) walk: Walk<'s, 'a, S>,
    pub(crate) records: Records,
    pub(crate) start: DraftMark,
    pub(crate) last: Option<ProfilePos>,
}

/// A memo of the message's entries, none of which is met.
///
/// # Errors
///
/// Out of memory.
pub(crate) fn empty_memo(alloc: Global, message: &Checked<'_>) -> Result<Memo, NoMemory>
    ensures { IfOk result (λ memo. IsEmptyMemo (value_of message.now) memo) }
{
    let found = message.message();
    let memo = Memo::none(alloc, &found.dictionary)?;
    Ok(memo)
}

/// The state at the beginning of a message, with the tables and the records of which the mark was made.
pub(crate) fn begin_state<'s, 'a, S: BuildHasher + Drop>(
    message: &'s Checked<'a>,
    tables: KeyTables<S>,
    records: Records,
    start: DraftMark,
    memo: Memo,
) -> AdderState<'s, 'a, S>
    requires mark { IsMark start (contents tables records) }
    requires memo { IsEmptyMemo (value_of message.now) memo }
    ensures state { IsAdderState result }
    ensures seen { seen result ≡ adding (contents tables records) (contents tables records) (value_of message.now) }
{
    let found = message.message();
    let walk = Walk::begin(&found.dictionary, tables, memo);
    AdderState {
        message,
        walk,
        records,
        start,
        last: None,
    }
}

/// Goes on with another message and a memo for it.
pub(crate) fn turn_to<'s, 'a, S: BuildHasher + Drop>(
    state: &mut AdderState<'s, 'a, S>,
    message: &'s Checked<'a>,
    memo: Memo,
)
    requires grown { HasGrown state.old.start (draft_in state.old) }
    requires memo { IsEmptyMemo (value_of message.now) memo }
    ensures state { IsAdderState state.new }
    ensures seen { seen state.new ≡ adding (draft_in state.old) (start_in state.old) (value_of message.now) }
{
    let found = message.message();
    state.walk.turn_to(&found.dictionary, memo);
    state.message = message;
    state.last = None;
}

/// Drops what came after the start. It takes no memory, and time for what was added since.
pub(crate) fn restart<S: BuildHasher + Drop>(state: &mut AdderState<'_, '_, S>)
    requires state { IsAdderState state.old }
    ensures state { IsAdderState state.new }
    ensures seen { seen state.new ≡ adding (start_in state.old) (start_in state.old) (message_in state.old) }
{
    let start = WalkMark {
        keys: state.start.keys,
        memo: MemoMark::none(),
    };
    state.walk.back_to(start);
    state.records.back_to(state.start.records);
    state.last = None;
}

/// Adds the profile at a position, joined as `joining` says, if the whole then has at most `limit` bytes. After an error all is as
/// before.
pub(crate) fn add_at<S: BuildHasher + Drop, L: Ledger>(
    state: &mut AdderState<'_, '_, S>,
    alloc: Global,
    pos: ProfilePos,
    joining: Joining,
    limit: u64,
    steps: &mut Steps<L>,
) -> Result<(), BuildFault>
    requires state { IsAdderState state.old }
    requires position { IsPosition (records_of (message_in state.old)) pos }
    requires limit { limit ≤ message_limit }
    ensures ok { OnOk result (StandsWithin limit joining (draft_in state.old) (draft_in state.new) (alone (message_in state.old) pos)) }
    ensures fault { IfErr result (IsFaultOfPlaced limit joining (draft_in state.old) (alone (message_in state.old) pos)) }
    ensures state { IsAdderState state.new }
    ensures kept { OnOk result (seen state.new ≡ adding (draft_in state.new) (start_in state.old) (message_in state.old)) }
    ensures grown { GoesOn (draft_in state.old) (draft_in state.new) }
    ensures steps { steps.new ≤ steps.old + entry_count (tables_in (dictionary_of (message_in state.old))) + 8 }
    ensures same { OnErr result (seen state.new ≡ seen state.old) }
{
    let incoming = incoming_at(state.message, pos, joining);
    let known = known_heads(state.last, pos);
    match put_or_go_back(
        &mut state.walk,
        &mut state.records,
        alloc,
        &incoming,
        known,
        limit,
        steps,
    ) {
        Ok(()) => {
            state.last = Some(pos);
            Ok(())
        }
        Err(fault) => Err(fault),
    }
}

// The profile at a position, as it comes to a draft.
fn incoming_at<'s, 'a>(
    message: &'s Checked<'a>,
    pos: ProfilePos,
    joining: Joining,
) -> Incoming<'s, 'a>
    requires { IsPosition (records_of (value_of message.now)) pos }
    ensures coming { coming result ≡ record_alone (records_of (value_of message.now)) pos ∷ [] }
    ensures joining { joining_of result ≡ joining }
    ensures part { (source : Dictionary) → dictionary_view source ≡ dictionary_of (value_of message.now) → IsPart (part_records resource_profiles) source (coming result, tt) }
    ensures fits { Fits envelope (alone (value_of message.now) pos) }
{
    let found = message.message();
    let single = single_at(found.records.as_slice(), pos);
    Incoming::Profile(single, joining)
}

// Puts what comes at the end, within a limit. After an error all is as before.
fn put_or_go_back<S: BuildHasher + Drop, L: Ledger>(
    walk: &mut Walk<'_, '_, S>,
    records: &mut Records,
    alloc: Global,
    incoming: &Incoming<'_, '_>,
    known: KnownHeads,
    limit: u64,
    steps: &mut Steps<L>,
) -> Result<(), BuildFault>
    requires part { IsPart (part_records resource_profiles) walk.old.source (coming incoming.now, tt) }
    requires fits { Fits envelope (message_with (coming incoming.now) walk.old.source) }
    requires known { AreKnown known records.old (coming incoming.now) }
    requires limit { limit ≤ message_limit }
    ensures ok { OnOk result (IsPut limit (joining_of incoming.now) walk.old walk.new records.old records.new (coming incoming.now)) }
    ensures fault { IfErr result (IsFaultOfPlaced limit (joining_of incoming.now) (contents walk.old.keys records.old) (message_with (coming incoming.now) walk.old.source)) }
    ensures grown { OnOk result (WalkGoesOn walk.old walk.new) }
    ensures front { OnOk result (IsPrefix records.old records.new) }
    ensures steps { steps.new ≤ steps.old + unmet walk.old + 1 }
    ensures same_walk { OnErr result (walk.new ≡ walk.old) }
    ensures same_records { OnErr result (records.new ≡ records.old) }
{
    let mark = walk.mark();
    let records_mark = records.mark();
    match put_within(walk, records, alloc, incoming, known, limit, steps) {
        Ok(()) => Ok(()),
        Err(fault) => {
            walk.back_to(mark);
            records.back_to(records_mark);
            Err(fault)
        }
    }
}

// The same. After an error what was there still stands in front.
fn put_within<S: BuildHasher + Drop, L: Ledger>(
    walk: &mut Walk<'_, '_, S>,
    records: &mut Records,
    alloc: Global,
    incoming: &Incoming<'_, '_>,
    known: KnownHeads,
    limit: u64,
    steps: &mut Steps<L>,
) -> Result<(), BuildFault>
    requires part { IsPart (part_records resource_profiles) walk.old.source (coming incoming.now, tt) }
    requires fits { Fits envelope (message_with (coming incoming.now) walk.old.source) }
    requires known { AreKnown known records.old (coming incoming.now) }
    requires limit { limit ≤ message_limit }
    ensures ok { OnOk result (IsPut limit (joining_of incoming.now) walk.old walk.new records.old records.new (coming incoming.now)) }
    ensures fault { IfErr result (IsFaultOfPlaced limit (joining_of incoming.now) (contents walk.old.keys records.old) (message_with (coming incoming.now) walk.old.source)) }
    ensures grown { WalkGoesOn walk.old walk.new }
    ensures front { IsPrefix records.old records.new }
    ensures steps { steps.new ≤ steps.old + unmet walk.old + 1 }
{
    let done = put_incoming(walk, records, alloc, incoming, known, limit, steps);
    let _tables = walk.tables();
    done
}
