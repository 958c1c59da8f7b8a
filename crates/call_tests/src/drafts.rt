//! Drafts, against bytes and sizes that were worked out by hand from the definition of canonical bytes.
ghost use Rattle.std.specs.Prelude.{◌≡◌, ◌<◌};
ghost use Rattle.draft_contents.specs.Marks.{GoesOn};

use dict_build::{BuildFault, Draft};
use otlp_msg::read_message;
use outside::FixedSeeds;
use std::alloc::Global;
use std::marker::Brand;
use std::process::Abort;
use std::sync::ledger::{Blank, Ledger};
use std::test::Fail;
use tables::Steps;

// One profile with the type cpu in ns.
const FIRST: &[u8] =
    b"\x0a\x0a\x12\x08\x12\x06\x0a\x04\x08\x02\x10\x03\x12\x10\x2a\x00\x2a\x03cpu\x2a\x03cpu\x2a\x02ns";

// One with the type ns in x.
const SECOND: &[u8] =
    b"\x0a\x0a\x12\x08\x12\x06\x0a\x04\x08\x02\x10\x01\x12\x09\x2a\x00\x2a\x01x\x2a\x02ns";

// The canonical bytes of the first, and of both under one resource and one scope: the second names the unit of the first.
const FIRST_ALONE: &[u8] =
    b"\x0a\x0a\x12\x08\x12\x06\x0a\x04\x08\x01\x10\x02\x12\x17\x0a\x00\x12\x00\x1a\x00\x22\x00\x2a\x00\x2a\x03cpu\x2a\x02ns\x32\x00\x3a\x00";

const BOTH: &[u8] =
    b"\x0a\x12\x12\x10\x12\x06\x0a\x04\x08\x01\x10\x02\x12\x06\x0a\x04\x08\x02\x10\x03\x12\x1a\x0a\x00\x12\x00\x1a\x00\x22\x00\x2a\x00\x2a\x03cpu\x2a\x02ns\x2a\x01x\x32\x00\x3a\x00";

// The canonical bytes of the first twice: both profiles under one resource and one scope, and its dictionary.
const FIRST_TWICE: &[u8] =
    b"\x0a\x12\x12\x10\x12\x06\x0a\x04\x08\x01\x10\x02\x12\x06\x0a\x04\x08\x01\x10\x02\x12\x17\x0a\x00\x12\x00\x1a\x00\x22\x00\x2a\x00\x2a\x03cpu\x2a\x02ns\x32\x00\x3a\x00";

// Those of no records: a dictionary of seven zero entries.
const NONE: &[u8] = b"\x12\x0e\x0a\x00\x12\x00\x1a\x00\x22\x00\x2a\x00\x32\x00\x3a\x00";

// What is in front of the 33,554,412 bytes of a payload in a profile: with them it is a message as long as one may be.
const LONG_FRONT: &[u8] =
    b"\x0a\xfb\xff\xff\x0f\x12\xf6\xff\xff\x0f\x12\xf1\xff\xff\x0f\x52\xec\xff\xff\x0f";

// Adds a message, and gives the size of the draft then.
#[tactic(auto, using(draft_contents::proofs::Marks::goes_itself))]
fn add<L: Ledger>(
    alloc: Global,
    draft: &mut Draft<FixedSeeds>,
    body: &[u8],
    steps: &mut Steps<L>,
) -> Result<u64, BuildFault>
    ensures { GoesOn draft.old draft.new }
{
    match read_message(alloc, body) {
        Ok(message) => {
            if let Err(fault) = draft.add_message(alloc, &message, steps) {
                return Err(fault);
            }
            Ok(draft.size())
        }
        Err(_) => Ok(0),
    }
}

// Adds a message and goes back to the mark before it. Gives the size of the draft with the message.
#[tactic(auto, using(draft_contents::proofs::Marks::can_go_back, draft_contents::proofs::Marks::marked_back))]
fn add_and_go_back<L: Ledger>(
    alloc: Global,
    draft: &mut Draft<FixedSeeds>,
    body: &[u8],
    steps: &mut Steps<L>,
) -> Result<u64, BuildFault>
    ensures { draft.new ≡ draft.old }
{
    let mark = draft.mark();
    let added = add(alloc, draft, body, steps);
    draft.back_to(mark);
    added
}

// Asserts that these are the bytes of a draft.
fn assert_text(
    rt: &impl Abort,
    alloc: Global,
    draft: &Draft<FixedSeeds>,
    want: &[u8],
) -> Result<(), Fail> {
    assert_eq!(rt; draft.size(), want.len() as u64);
    match draft.text(alloc) {
        Ok(bytes) => assert_eq!(rt; bytes.as_slice(), want),
        Err(_) => assert_eq!(rt; b"no memory".as_slice(), want),
    }
    Ok(())
}

// Asserts that a draft is finished as these bytes.
fn assert_finished(
    rt: &impl Abort,
    alloc: Global,
    draft: Draft<FixedSeeds>,
    want: &[u8],
) -> Result<(), Fail> {
    match draft.finish() {
        Ok(bytes) => assert_eq!(rt; bytes.as_slice(), want),
        Err(_) => assert_eq!(rt; b"no memory".as_slice(), want),
    }
    Ok(())
}

// Two messages.
fn try_two<L: Ledger>(rt: &impl Abort, alloc: Global, blank: Blank) -> Result<(), Fail>
    requires name { blank.name ≡ L.name }
    requires parts { blank.parts ≡ L.parts }
    requires some { 0 < blank.parts }
{
    let mut steps = Steps::<L>::begin(blank);
    let mut draft = Draft::begin(alloc, &mut FixedSeeds)?;
    assert_eq!(rt; draft.size(), 16);
    assert_eq!(rt; add(alloc, &mut draft, FIRST, &mut steps), Ok(37));
    assert_eq!(rt; add(alloc, &mut draft, SECOND, &mut steps), Ok(48));
    assert_finished(rt, alloc, draft, BOTH)
}

// A second message that is too long beside the first.
fn try_too_long<L: Ledger>(rt: &impl Abort, alloc: Global, blank: Blank) -> Result<(), Fail>
    requires name { blank.name ≡ L.name }
    requires parts { blank.parts ≡ L.parts }
    requires some { 0 < blank.parts }
{
    let mut steps = Steps::<L>::begin(blank);
    let mut long = Vec::new(alloc);
    long.extend_from_slice(LONG_FRONT)?;
    long.resize(33_554_432, 0)?;
    let mut draft = Draft::begin(alloc, &mut FixedSeeds)?;
    assert_eq!(rt; add(alloc, &mut draft, FIRST, &mut steps), Ok(37));
    let fault = BuildFault::OutputLimit { size: 33_554_465 };
    assert_eq!(rt; add(alloc, &mut draft, &long, &mut steps), Err(fault));
    assert_eq!(rt; draft.size(), 37);
    assert_finished(rt, alloc, draft, FIRST_ALONE)
}

// A message that is taken back, and added again.
fn try_back<L: Ledger>(rt: &impl Abort, alloc: Global, blank: Blank) -> Result<(), Fail>
    requires name { blank.name ≡ L.name }
    requires parts { blank.parts ≡ L.parts }
    requires some { 0 < blank.parts }
{
    let mut steps = Steps::<L>::begin(blank);
    let mut draft = Draft::begin(alloc, &mut FixedSeeds)?;
    assert_eq!(rt; add(alloc, &mut draft, FIRST, &mut steps), Ok(37));
    let size = add_and_go_back(alloc, &mut draft, SECOND, &mut steps);
    assert_eq!(rt; size, Ok(48));
    assert_text(rt, alloc, &draft, FIRST_ALONE)?;
    assert_eq!(rt; add(alloc, &mut draft, SECOND, &mut steps), Ok(48));
    assert_text(rt, alloc, &draft, BOTH)?;
    assert_finished(rt, alloc, draft, BOTH)
}

// Messages that are taken back one after the other, while an older mark stays one.
fn try_older_mark<L: Ledger>(rt: &impl Abort, alloc: Global, blank: Blank) -> Result<(), Fail>
    requires name { blank.name ≡ L.name }
    requires parts { blank.parts ≡ L.parts }
    requires some { 0 < blank.parts }
{
    let mut steps = Steps::<L>::begin(blank);
    let mut long = Vec::new(alloc);
    long.extend_from_slice(LONG_FRONT)?;
    long.resize(33_554_432, 0)?;
    let mut draft = Draft::begin(alloc, &mut FixedSeeds)?;
    assert_text(rt, alloc, &draft, NONE)?;
    let size = add_below_older_mark(alloc, &mut draft, &long, &mut steps);
    let fault = BuildFault::OutputLimit { size: 33_554_473 };
    assert_eq!(rt; size, Err(fault));
    assert_text(rt, alloc, &draft, NONE)?;
    assert_eq!(rt; add(alloc, &mut draft, FIRST, &mut steps), Ok(37));
    assert_eq!(rt; add(alloc, &mut draft, FIRST_ALONE, &mut steps), Ok(45));
    assert_finished(rt, alloc, draft, FIRST_TWICE)
}

// Adds the first message, takes the second one back, adds the first again and a message that is too long, and goes back to the
// mark before all. Gives the answer of the last.
fn add_below_older_mark<L: Ledger>(
    alloc: Global,
    draft: &mut Draft<FixedSeeds>,
    long: &[u8],
    steps: &mut Steps<L>,
) -> Result<u64, BuildFault>
    ensures { draft.new ≡ draft.old }
{
    let older = draft.mark();
    let _first = add(alloc, draft, FIRST, steps);
    let _second = add_and_go_back(alloc, draft, SECOND, steps);
    let _again = add(alloc, draft, FIRST, steps);
    let refused = add(alloc, draft, long, steps);
    draft.back_to(older);
    refused
}

#[test]
fn a_draft_joins_messages(rt: HostRuntime) -> Result<(), Fail> {
    try_two::<Brand>(&rt, rt.alloc(), Blank::new(1))
}

#[test]
fn a_refused_message_leaves_the_draft(rt: HostRuntime) -> Result<(), Fail> {
    try_too_long::<Brand>(&rt, rt.alloc(), Blank::new(1))
}

#[test]
fn a_message_that_was_taken_back_is_added_again(rt: HostRuntime) -> Result<(), Fail> {
    try_back::<Brand>(&rt, rt.alloc(), Blank::new(1))
}

#[test]
fn an_older_mark_stays_one(rt: HostRuntime) -> Result<(), Fail> {
    try_older_mark::<Brand>(&rt, rt.alloc(), Blank::new(1))
}
