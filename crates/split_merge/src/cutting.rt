//! Cutting the next part off messages.
ghost use Rattle.std.specs.Prelude.{◌≡◌, ◌<◌, ◌≤◌, [], suc, Ok, Some, length, IfOk, IfErr, IfSome, OnOk, OnErr};
ghost use Rattle.otlp_msg.specs.Message.{message_limit};
ghost use Rattle.dict_build.specs.Adders.{adding};
ghost use Rattle.draft_contents.specs.Draft.{IsFaultOfPlaced, StandsFor, StandsWithin};
ghost use Rattle.split_merge.specs.Canonical.{IsAcceptedAs, IsBuildFault, IsOnlyOf};
ghost use Rattle.split_merge.specs.Cutting.{IsCutPart, IsCutting};
ghost use Rattle.split_merge.specs.PartSteps.{GrowsPart, IsAtRest, IsGrowing, IsOver, IsPlaceIfAny, IsWholePart, joining_after, messages_in, splitting_at};
ghost use Rattle.split_merge.specs.Places.{IsPlace, IsPlaceOf, alone_at, message_at, place_index};
ghost use Rattle.split_merge.specs.Splits.{after_next, next_of, next_part};

use crate::places::{Place, next_place};
use dict_build::{BuildFault, Draft, Joining, ProfileAdder};
use otlp_msg::{Checked, MESSAGE_LIMIT};
use outside::Seeds;
use pb_wire::{Blob, NoMemory};
use std::alloc::Global;
use std::marker::Brand;
use std::sync::ledger::{Blank, Ledger};
use tables::Steps;

/// What is cut: messages, and the number of bytes that a part may have.
#[derive(Clone, Copy)]
pub(crate) struct SplitInput<'s, 'a> {
    pub(crate) messages: &'s [Checked<'a>],
    pub(crate) limit: u64,
}

/// An adder, and the number of the message that it is over.
#[derive(Drop)]
pub(crate) struct MessageAdder<'s, 'a, M: Seeds> {
    pub(crate) adder: ProfileAdder<'s, 'a, M>,
    pub(crate) number: usize,
}

/// An adder with an empty draft, and the place of the first profile that is in no part yet.
#[derive(Drop)]
pub(crate) struct Cutting<'s, 'a, M: Seeds> {
    pub(crate) over: MessageAdder<'s, 'a, M>,
    pub(crate) next: Option<Place>,
}

/// The bytes of a part, and the place of the first profile after it.
#[derive(Drop)]
pub(crate) struct CutPart {
    pub(crate) bytes: Blob,
    pub(crate) next: Option<Place>,
}

/// What became of a part.
#[derive(Clone, Copy)]
pub(crate) enum Growth {
    /// The profile at this place came to it.
    More(Place),
    /// It is whole, and this is the place of the profile after it.
    Ends(Option<Place>),
}

/// Begins to cut at a place.
///
/// # Errors
///
/// Out of memory.
pub(crate) fn begin_cutting<'s, 'a, M: Seeds>(
    alloc: Global,
    input: &SplitInput<'s, 'a>,
    first: Place,
    seeds: &mut M,
) -> Result<Cutting<'s, 'a, M>, NoMemory>
    requires { IsPlace (messages_in input.now) first }
    ensures state { IfOk result (IsCutting (messages_in input.now)) }
    ensures next { IfOk result (λ c. c.next ≡ Some first) }
{
    let number = first.message;
    let draft = Draft::begin(alloc, seeds)?;
    let message = &input.messages[number];
    match ProfileAdder::begin(alloc, draft, message) {
        Ok(adder) => Ok(Cutting {
            over: MessageAdder { adder, number },
            next: Some(first),
        }),
        Err((_, stop)) => Err(stop),
    }
}

/// The canonical bytes of the next part; nothing after the last.
///
/// # Errors
///
/// `OutputLimit` where the part, which is one profile, has more bytes than a message may have, with their number; or out of memory.
/// The next call answers the same part again.
pub(crate) fn next_bytes<'s, 'a, M: Seeds>(
    cutting: &mut Cutting<'s, 'a, M>,
    alloc: Global,
    input: &SplitInput<'s, 'a>,
) -> Result<Option<Blob>, BuildFault>
    requires state { IsCutting (messages_in input.now) cutting.old }
    requires limit { input.now.limit ≤ message_limit }
    ensures state { IsCutting (messages_in input.now) cutting.new }
    ensures ok { IfOk result (λ part. next_of (splitting_at input.now cutting.old.next) ≡ Ok part) }
    ensures refused { IfErr result (IsBuildFault (next_of (splitting_at input.now cutting.old.next))) }
    ensures gone { OnOk result (splitting_at input.now cutting.new.next ≡ after_next (splitting_at input.now cutting.old.next)) }
    ensures same { OnErr result (cutting.new.next ≡ cutting.old.next) }
    ensures accepted { IfOk result (λ part. IfSome part (λ b. IsAcceptedAs b (next_part (splitting_at input.now cutting.old.next)))) }
    ensures unique { IfOk result (λ part. IfSome part (λ b. IsOnlyOf b (next_part (splitting_at input.now cutting.old.next)))) }
{
    let Some(first) = cutting.next else {
        return Ok(None);
    };
    match cut_part::<M, Brand>(&mut cutting.over, alloc, input, first, Blank::new(1)) {
        Ok(CutPart { bytes, next }) => {
            cutting.next = next;
            Ok(Some(bytes))
        }
        Err(fault) => Err(fault),
    }
}

// The part that begins at a place, with a counter of steps over this ledger. The draft is empty again after it.
fn cut_part<'s, 'a, M: Seeds, L: Ledger>(
    over: &mut MessageAdder<'s, 'a, M>,
    alloc: Global,
    input: &SplitInput<'s, 'a>,
    first: Place,
    blank: Blank,
) -> Result<CutPart, BuildFault>
    requires name { blank.name ≡ L.name }
    requires parts { blank.parts ≡ L.parts }
    requires some { 0 < blank.parts }
    requires place { IsPlace (messages_in input.now) first }
    requires limit { input.now.limit ≤ message_limit }
    requires over { IsOver (messages_in input.now) over.old.number over.old.adder }
    requires rest { IsAtRest over.old.adder }
    ensures over { IsOver (messages_in input.now) over.new.number over.new.adder }
    ensures rest { IsAtRest over.new.adder }
    ensures cut { IfOk result (IsCutPart input.now first) }
    ensures refused { IfErr result (IsBuildFault (next_of (splitting_at input.now (Some first)))) }
{
    let mut steps = Steps::<L>::begin(blank);
    let part = filled_part(over, alloc, input, first, &mut steps);
    over.adder.restart();
    part
}

// The same, and the draft has the part.
fn filled_part<'s, 'a, M: Seeds, L: Ledger>(
    over: &mut MessageAdder<'s, 'a, M>,
    alloc: Global,
    input: &SplitInput<'s, 'a>,
    first: Place,
    steps: &mut Steps<L>,
) -> Result<CutPart, BuildFault>
    requires place { IsPlace (messages_in input.now) first }
    requires limit { input.now.limit ≤ message_limit }
    requires over { IsOver (messages_in input.now) over.old.number over.old.adder }
    requires empty { StandsFor over.old.adder.draft [] }
    ensures over { IsOver (messages_in input.now) over.new.number over.new.adder }
    ensures start { over.new.adder.start ≡ over.old.adder.start }
    ensures cut { IfOk result (IsCutPart input.now first) }
    ensures refused { IfErr result (IsBuildFault (next_of (splitting_at input.now (Some first)))) }
{
    let next = fill(over, alloc, input, first, steps)?;
    let bytes = over.adder.text(alloc)?;
    Ok(CutPart { bytes, next })
}

// Adds the profiles of the part that begins at a place to the empty draft. The place of the profile after it is returned.
fn fill<'s, 'a, M: Seeds, L: Ledger>(
    over: &mut MessageAdder<'s, 'a, M>,
    alloc: Global,
    input: &SplitInput<'s, 'a>,
    first: Place,
    steps: &mut Steps<L>,
) -> Result<Option<Place>, BuildFault>
    requires place { IsPlace (messages_in input.now) first }
    requires limit { input.now.limit ≤ message_limit }
    requires over { IsOver (messages_in input.now) over.old.number over.old.adder }
    requires empty { StandsFor over.old.adder.draft [] }
    ensures over { IsOver (messages_in input.now) over.new.number over.new.adder }
    ensures start { over.new.adder.start ≡ over.old.adder.start }
    ensures whole { IfOk result (λ next. IsWholePart (messages_in input.now) input.now.limit (place_index (messages_in input.now) first) next over.new.adder.draft) }
    ensures refused { IfErr result (IsBuildFault (next_of (splitting_at input.now (Some first)))) }
{
    if let Err(fault) = add_at(
        over,
        alloc,
        input,
        first,
        Joining::Resource,
        MESSAGE_LIMIT,
        steps,
    ) {
        return Err(fault);
    }
    match grow(over, alloc, input, first, steps) {
        Ok(next) => Ok(next),
        Err(stop) => Err(stop.into()),
    }
}

// Adds profiles to the part that the draft has, which is the one at a place, until it is whole. The place of the profile after it is
// returned.
fn grow<'s, 'a, M: Seeds, L: Ledger>(
    over: &mut MessageAdder<'s, 'a, M>,
    alloc: Global,
    input: &SplitInput<'s, 'a>,
    first: Place,
    steps: &mut Steps<L>,
) -> Result<Option<Place>, NoMemory>
    requires limit { input.now.limit ≤ message_limit }
    requires over { IsOver (messages_in input.now) over.old.number over.old.adder }
    requires growing { IsGrowing (messages_in input.now) input.now.limit (place_index (messages_in input.now) first) first over.old.adder.draft }
    ensures over { IsOver (messages_in input.now) over.new.number over.new.adder }
    ensures start { over.new.adder.start ≡ over.old.adder.start }
    ensures whole { IfOk result (λ next. IsWholePart (messages_in input.now) input.now.limit (place_index (messages_in input.now) first) next over.new.adder.draft) }
{
    let mut last = first;
    'profiles: loop {
        match add_next(over, alloc, input, last, steps) {
            Ok(growth) => match growth {
                Growth::More(place) => last = place,
                Growth::Ends(next) => return Ok(next),
            },
            Err(stop) => return Err(stop),
        }
    }
}

// Adds the profile after the one at a place, if there is one and the part then fits.
fn add_next<'s, 'a, M: Seeds, L: Ledger>(
    over: &mut MessageAdder<'s, 'a, M>,
    alloc: Global,
    input: &SplitInput<'s, 'a>,
    last: Place,
    steps: &mut Steps<L>,
) -> Result<Growth, NoMemory>
    requires place { IsPlace (messages_in input.now) last }
    requires limit { input.now.limit ≤ message_limit }
    requires over { IsOver (messages_in input.now) over.old.number over.old.adder }
    ensures over { IsOver (messages_in input.now) over.new.number over.new.adder }
    ensures start { over.new.adder.start ≡ over.old.adder.start }
    ensures growth { IfOk result (GrowsPart (messages_in input.now) input.now.limit last over.old.adder.draft over.new.adder.draft) }
{
    let next = next_place(input.messages, last)?;
    match next {
        Some(place) => add_after(over, alloc, input, last, place, steps),
        None => Ok(Growth::Ends(None)),
    }
}

// Adds the profile at a place, which comes after the one at `last`, if the part then fits.
fn add_after<'s, 'a, M: Seeds, L: Ledger>(
    over: &mut MessageAdder<'s, 'a, M>,
    alloc: Global,
    input: &SplitInput<'s, 'a>,
    last: Place,
    place: Place,
    steps: &mut Steps<L>,
) -> Result<Growth, NoMemory>
    requires last { IsPlace (messages_in input.now) last }
    requires next { IsPlaceOf (messages_in input.now) (suc (place_index (messages_in input.now) last)) (Some place) }
    requires limit { input.now.limit ≤ message_limit }
    requires over { IsOver (messages_in input.now) over.old.number over.old.adder }
    ensures over { IsOver (messages_in input.now) over.new.number over.new.adder }
    ensures start { over.new.adder.start ≡ over.old.adder.start }
    ensures growth { IfOk result (GrowsPart (messages_in input.now) input.now.limit last over.old.adder.draft over.new.adder.draft) }
{
    let joining = joining_after(last, place);
    match add_at(over, alloc, input, place, joining, input.limit, steps) {
        Ok(()) => Ok(Growth::More(place)),
        Err(BuildFault::OutputLimit { .. }) => Ok(Growth::Ends(Some(place))),
        Err(BuildFault::NoMemory) => Err(NoMemory),
    }
}

// How the profile at a place comes to the one before it.
fn joining_after(last: Place, place: Place) -> Joining
    ensures { result ≡ joining_after last place }
{
    if last.message != place.message || last.pos.resource != place.pos.resource {
        Joining::Resource
    } else if last.pos.scope != place.pos.scope {
        Joining::Scope
    } else {
        Joining::Seam
    }
}

// Adds the profile at a place, joined as `joining` says, if the draft then has at most `limit` bytes. After an error the draft is as
// before.
fn add_at<'s, 'a, M: Seeds, L: Ledger>(
    over: &mut MessageAdder<'s, 'a, M>,
    alloc: Global,
    input: &SplitInput<'s, 'a>,
    place: Place,
    joining: Joining,
    limit: u64,
    steps: &mut Steps<L>,
) -> Result<(), BuildFault>
    requires place { IsPlace (messages_in input.now) place }
    requires limit { limit ≤ message_limit }
    requires over { IsOver (messages_in input.now) over.old.number over.old.adder }
    ensures over { IsOver (messages_in input.now) over.new.number over.new.adder }
    ensures start { over.new.adder.start ≡ over.old.adder.start }
    ensures ok { OnOk result (StandsWithin limit joining over.old.adder.draft over.new.adder.draft (alone_at (messages_in input.now) place)) }
    ensures fault { IfErr result (IsFaultOfPlaced limit joining over.old.adder.draft (alone_at (messages_in input.now) place)) }
    ensures same { OnErr result (over.new.adder.draft ≡ over.old.adder.draft) }
{
    turn_to(over, alloc, input, place.message)?;
    over.adder.add(alloc, place.pos, joining, limit, steps)
}

// Goes to the message with a number, if the adder is over another one.
fn turn_to<'s, 'a, M: Seeds>(
    over: &mut MessageAdder<'s, 'a, M>,
    alloc: Global,
    input: &SplitInput<'s, 'a>,
    number: usize,
) -> Result<(), NoMemory>
    requires within { number < length (messages_in input.now) }
    requires over { IsOver (messages_in input.now) over.old.number over.old.adder }
    ensures over { IsOver (messages_in input.now) over.new.number over.new.adder }
    ensures ok { OnOk result (over.new.adder ≡ adding over.old.adder.draft over.old.adder.start (message_at (messages_in input.now) number)) }
    ensures same { OnErr result (over.new.adder ≡ over.old.adder) }
{
    if over.number == number {
        return Ok(());
    }
    over.adder.turn_to(alloc, &input.messages[number])?;
    over.number = number;
    Ok(())
}
