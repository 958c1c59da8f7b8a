//! Profiles of messages that are added one by one over one memo.
ghost use Rattle.std.specs.Prelude.{◌≡◌, ◌<◌, ◌≤◌, IfOk};
ghost use Rattle.otlp_msg.specs.Checked.{value_of};
ghost use Rattle.otlp_msg.specs.Message.{message_limit};

use crate::bodies::{CPU, NAMED_SCOPE, NONE, SCOPES, X};
use crate::positions::{position, position_in};
use dict_build::{BuildFault, Draft, Joining, ProfileAdder};
use otlp_msg::{Checked, ProfilePos, read_message};
use outside::FixedSeeds;
use pb_wire::NoMemory;
use std::alloc::Global;
use std::marker::Brand;
use std::process::Abort;
use std::sync::ledger::{Blank, Ledger};
use std::test::Fail;
use tables::Steps;

// A profile, what is asked for it, and what the answer and the bytes of the draft then are.
#[derive(Clone, Copy)]
struct Case {
    pos: ProfilePos,
    joining: Joining,
    limit: u64,
    refused: Option<u64>,
    text: &'static [u8],
}

// The profiles x and cpu in one scope record.
const TWO: &[u8] =
    b"\x0a\x12\x12\x10\x12\x06\x0a\x04\x08\x01\x10\x02\x12\x06\x0a\x04\x08\x03\x10\x02\x12\x1a\x0a\x00\x12\x00\x1a\x00\x22\x00\x2a\x00\x2a\x01x\x2a\x02ns\x2a\x03cpu\x32\x00\x3a\x00";

// The same, and cpu in a scope record of its own.
const THREE: &[u8] =
    b"\x0a\x1c\x12\x10\x12\x06\x0a\x04\x08\x01\x10\x02\x12\x06\x0a\x04\x08\x03\x10\x02\x12\x08\x12\x06\x0a\x04\x08\x03\x10\x02\x12\x1a\x0a\x00\x12\x00\x1a\x00\x22\x00\x2a\x00\x2a\x01x\x2a\x02ns\x2a\x03cpu\x32\x00\x3a\x00";

// The profile cpu, and an empty one in the scope `s`.
const WITH_NAMED: &[u8] =
    b"\x0a\x13\x12\x08\x12\x06\x0a\x04\x08\x01\x10\x02\x12\x07\x0a\x03\x0a\x01s\x12\x00\x12\x17\x0a\x00\x12\x00\x1a\x00\x22\x00\x2a\x00\x2a\x03cpu\x2a\x02ns\x32\x00\x3a\x00";

// The same, and the profile x after the scope `s`.
const AND_X: &[u8] =
    b"\x0a\x1d\x12\x08\x12\x06\x0a\x04\x08\x01\x10\x02\x12\x07\x0a\x03\x0a\x01s\x12\x00\x12\x08\x12\x06\x0a\x04\x08\x03\x10\x02\x12\x1a\x0a\x00\x12\x00\x1a\x00\x22\x00\x2a\x00\x2a\x03cpu\x2a\x02ns\x2a\x01x\x32\x00\x3a\x00";

// Adds the profile of a case.
fn try_case<L: Ledger>(
    rt: &impl Abort,
    alloc: Global,
    adder: &mut ProfileAdder<'_, '_, FixedSeeds>,
    message: &Checked<'_>,
    case: Case,
    steps: &mut Steps<L>,
) -> Result<(), Fail>
    requires over { adder.old.message ≡ value_of message.now }
    requires limit { case.limit ≤ message_limit }
    ensures over { adder.new.message ≡ value_of message.now }
{
    if let Some(pos) = position_in(message, case.pos) {
        let added = adder.add(alloc, pos, case.joining, case.limit, steps);
        let want = match case.refused {
            Some(size) => Err(BuildFault::OutputLimit { size }),
            None => Ok(()),
        };
        assert_eq!(rt; added, want);
    }
    assert_text(rt, alloc, adder, case.text)
}

// Asserts that these are the bytes of the draft.
fn assert_text(
    rt: &impl Abort,
    alloc: Global,
    adder: &ProfileAdder<'_, '_, FixedSeeds>,
    want: &[u8],
) -> Result<(), Fail> {
    match adder.text(alloc) {
        Ok(bytes) => assert_eq!(rt; bytes.as_slice(), want),
        Err(_) => assert_eq!(rt; b"no memory".as_slice(), want),
    }
    Ok(())
}

// A case of an added profile.
fn added(pos: ProfilePos, joining: Joining, limit: u64, text: &'static [u8]) -> Case
    ensures { result.limit ≡ limit }
{
    Case {
        pos,
        joining,
        limit,
        refused: None,
        text,
    }
}

// A case of a refused profile.
fn refused(pos: ProfilePos, joining: Joining, limit: u64, size: u64, text: &'static [u8]) -> Case
    ensures { result.limit ≡ limit }
{
    Case {
        pos,
        joining,
        limit,
        refused: Some(size),
        text,
    }
}

// Two profiles bring the text cpu and are refused first; then all are dropped, and one of them is added again.
fn try_limits<L: Ledger>(
    rt: &impl Abort,
    alloc: Global,
    adder: &mut ProfileAdder<'_, '_, FixedSeeds>,
    message: &Checked<'_>,
    steps: &mut Steps<L>,
) -> Result<(), Fail>
    requires { adder.old.message ≡ value_of message.now }
    ensures { adder.new.message ≡ value_of message.now }
{
    let x = position(0, 0, 1);
    let cpu = position(0, 0, 0);
    let last = position(0, 1, 0);
    try_case(
        rt,
        alloc,
        adder,
        message,
        added(x, Joining::Seam, 35, X),
        steps,
    )?;
    try_case(
        rt,
        alloc,
        adder,
        message,
        refused(cpu, Joining::Seam, 47, 48, X),
        steps,
    )?;
    try_case(
        rt,
        alloc,
        adder,
        message,
        added(cpu, Joining::Seam, 48, TWO),
        steps,
    )?;
    try_case(
        rt,
        alloc,
        adder,
        message,
        refused(last, Joining::Scope, 57, 58, TWO),
        steps,
    )?;
    try_case(
        rt,
        alloc,
        adder,
        message,
        added(last, Joining::Scope, 58, THREE),
        steps,
    )?;
    adder.restart();
    assert_text(rt, alloc, adder, NONE)?;
    try_case(
        rt,
        alloc,
        adder,
        message,
        added(cpu, Joining::Seam, 37, CPU),
        steps,
    )
}

// Another message and the first one again, whose texts are known already.
fn try_turns<'s, 'a, L: Ledger>(
    rt: &impl Abort,
    alloc: Global,
    adder: &mut ProfileAdder<'s, 'a, FixedSeeds>,
    message: &'s Checked<'a>,
    named: &'s Checked<'a>,
    steps: &mut Steps<L>,
) -> Result<(), Fail> {
    adder.turn_to(alloc, named)?;
    let first = added(position(0, 0, 0), Joining::Seam, 46, WITH_NAMED);
    try_case(rt, alloc, adder, named, first, steps)?;
    adder.turn_to(alloc, message)?;
    let x = added(position(0, 0, 1), Joining::Seam, 59, AND_X);
    try_case(rt, alloc, adder, message, x, steps)
}

// An adder over a message, with a draft of no records.
fn begin<'s, 'a>(
    alloc: Global,
    message: &'s Checked<'a>,
) -> Result<ProfileAdder<'s, 'a, FixedSeeds>, NoMemory>
    ensures { IfOk result (λ adder. adder.message ≡ value_of message.now) }
{
    let draft = Draft::begin(alloc, &mut FixedSeeds)?;
    match ProfileAdder::begin(alloc, draft, message) {
        Ok(adder) => Ok(adder),
        Err((_, stop)) => Err(stop),
    }
}

// One adder over two messages.
fn try_adder<'s, 'a, L: Ledger>(
    rt: &impl Abort,
    alloc: Global,
    message: &'s Checked<'a>,
    named: &'s Checked<'a>,
    blank: Blank,
) -> Result<(), Fail>
    requires name { blank.name ≡ L.name }
    requires parts { blank.parts ≡ L.parts }
    requires some { 0 < blank.parts }
{
    let mut steps = Steps::<L>::begin(blank);
    let mut adder = begin(alloc, message)?;
    try_limits(rt, alloc, &mut adder, message, &mut steps)?;
    try_turns(rt, alloc, &mut adder, message, named, &mut steps)?;
    assert_eq!(rt; adder.into_draft().size(), 59);
    Ok(())
}

#[test]
fn an_adder_goes_back_and_on(rt: HostRuntime) -> Result<(), Fail> {
    let message = read_message(rt.alloc(), SCOPES)?;
    let named = read_message(rt.alloc(), NAMED_SCOPE)?;
    try_adder::<Brand>(&rt, rt.alloc(), &message, &named, Blank::new(1))
}
