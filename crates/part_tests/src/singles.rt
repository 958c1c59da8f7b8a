//! Single profiles that are added to a draft.
ghost use Rattle.std.specs.Prelude.{◌≡◌, ◌<◌};
ghost use Rattle.otlp_msg.specs.Checked.{value_of};
ghost use Rattle.otlp_msg.specs.Message.{records_of};
ghost use Rattle.draft_contents.specs.Singles.{IsPosition};

use crate::bodies::{CPU, NAMED_SCOPE, SCOPES, long_body};
use crate::positions::{position, position_in};
use dict_build::{BuildFault, Draft, Joining};
use otlp_msg::{Checked, ProfilePos, read_message};
use outside::FixedSeeds;
use std::alloc::Global;
use std::marker::Brand;
use std::process::Abort;
use std::sync::ledger::{Blank, Ledger};
use std::test::Fail;
use tables::Steps;

// A resource with an attribute, and in a scope without a head an empty profile.
const RESOURCE: &[u8] = b"\x0a\x0f\x0a\x09\x0a\x07\x0a\x01k\x12\x02\x18\x05\x12\x02\x12\x00";

// Eight profiles, as they are added below: a scope record of two, and one of two under the same resource record; the first one
// in a resource record of its own, and under it the scope `s`; the resource; and the scope `s` without a resource.
const JOINED: &[u8] =
    b"\x0a\x24\x12\x10\x12\x06\x0a\x04\x08\x01\x10\x02\x12\x06\x0a\x04\x08\x03\x10\x02\x12\x10\x12\x06\x0a\x04\x08\x03\x10\x02\x12\x06\x0a\x04\x08\x03\x10\x02\x0a\x13\x12\x08\x12\x06\x0a\x04\x08\x01\x10\x02\x12\x07\x0a\x03\x0a\x01s\x12\x00\x0a\x0f\x0a\x09\x0a\x07\x0a\x01k\x12\x02\x18\x05\x12\x02\x12\x00\x0a\x09\x12\x07\x0a\x03\x0a\x01s\x12\x00\x12\x1a\x0a\x00\x12\x00\x1a\x00\x22\x00\x2a\x00\x2a\x01x\x2a\x02ns\x2a\x03cpu\x32\x00\x3a\x00";

// The profile of the type cpu in ns, and that of x in ns in the same scope record.
const BOTH: &[u8] =
    b"\x0a\x12\x12\x10\x12\x06\x0a\x04\x08\x01\x10\x02\x12\x06\x0a\x04\x08\x03\x10\x02\x12\x1a\x0a\x00\x12\x00\x1a\x00\x22\x00\x2a\x00\x2a\x03cpu\x2a\x02ns\x2a\x01x\x32\x00\x3a\x00";

// Adds the profile at a position of a message.
fn add_at<L: Ledger>(
    alloc: Global,
    draft: &mut Draft<FixedSeeds>,
    message: &Checked<'_>,
    pos: ProfilePos,
    joining: Joining,
    steps: &mut Steps<L>,
) -> Result<(), BuildFault>
    requires { IsPosition (records_of (value_of message.now)) pos }
{
    match joining {
        Joining::Resource => draft.add_profile(alloc, message, pos, true, steps),
        Joining::Scope => draft.add_scope(alloc, message, pos, steps),
        Joining::Seam => draft.add_profile(alloc, message, pos, false, steps),
    }
}

// Adds the profile at a position of the message of a body, and gives the size of the draft then.
fn add<L: Ledger>(
    alloc: Global,
    draft: &mut Draft<FixedSeeds>,
    body: &[u8],
    pos: ProfilePos,
    joining: Joining,
    steps: &mut Steps<L>,
) -> Result<u64, BuildFault> {
    let Ok(message) = read_message(alloc, body) else {
        return Ok(0);
    };
    let Some(pos) = position_in(&message, pos) else {
        return Ok(1);
    };
    match add_at(alloc, draft, &message, pos, joining, steps) {
        Ok(()) => Ok(draft.size()),
        Err(fault) => Err(fault),
    }
}

// Asserts that a draft is finished as these bytes.
fn assert_finished(
    rt: &impl Abort,
    alloc: Global,
    draft: Draft<FixedSeeds>,
    want: &[u8],
) -> Result<(), Fail> {
    match draft.finish() {
        Ok(bytes) => assert_eq!(rt; bytes.as_slice(), want),
        Err(_) => assert_eq!(rt; b"no memory".as_slice(), want),
    }
    Ok(())
}

// Profiles that come to the last scope record, in one of their own, and in a resource record of their own.
fn try_joinings<L: Ledger>(rt: &impl Abort, alloc: Global, blank: Blank) -> Result<(), Fail>
    requires name { blank.name ≡ L.name }
    requires parts { blank.parts ≡ L.parts }
    requires some { 0 < blank.parts }
{
    let mut steps = Steps::<L>::begin(blank);
    let mut draft = Draft::begin(alloc, &mut FixedSeeds)?;
    for (body, pos, joining, size) in [
        (SCOPES, position(0, 0, 1), Joining::Seam, 35),
        (SCOPES, position(0, 0, 0), Joining::Seam, 48),
        (SCOPES, position(0, 1, 0), Joining::Scope, 58),
        (SCOPES, position(0, 1, 0), Joining::Seam, 66),
        (SCOPES, position(0, 0, 1), Joining::Resource, 78),
        (NAMED_SCOPE, position(0, 0, 0), Joining::Seam, 87),
        (RESOURCE, position(0, 0, 0), Joining::Scope, 104),
        (NAMED_SCOPE, position(0, 0, 0), Joining::Seam, 115),
    ] {
        let added = add(alloc, &mut draft, body, pos, joining, &mut steps);
        assert_eq!(rt; added, Ok(size));
    }
    assert_finished(rt, alloc, draft, JOINED)
}

// A profile that is too long beside another one, however it is joined. Beside its 33,554,415 bytes there are 8 of the other and
// 28 of the dictionary with the text that it brings; then two heads of 5 bytes each, a third one of 2, or two more of 2 each.
fn try_refusals<L: Ledger>(rt: &impl Abort, alloc: Global, blank: Blank) -> Result<(), Fail>
    requires name { blank.name ≡ L.name }
    requires parts { blank.parts ≡ L.parts }
    requires some { 0 < blank.parts }
{
    let mut steps = Steps::<L>::begin(blank);
    let first = position(0, 0, 0);
    let body = long_body(alloc)?;
    let mut draft = Draft::begin(alloc, &mut FixedSeeds)?;
    let added = add(alloc, &mut draft, CPU, first, Joining::Seam, &mut steps);
    assert_eq!(rt; added, Ok(37));
    for (joining, size) in [
        (Joining::Seam, 33_554_461),
        (Joining::Scope, 33_554_463),
        (Joining::Resource, 33_554_465),
    ] {
        let refused = add(alloc, &mut draft, &body, first, joining, &mut steps);
        assert_eq!(rt; refused, Err(BuildFault::OutputLimit { size }));
        assert_eq!(rt; draft.size(), 37);
        let bytes = draft.text(alloc)?;
        assert_eq!(rt; bytes.as_slice(), CPU);
    }
    let pos = position(0, 0, 1);
    let added = add(alloc, &mut draft, SCOPES, pos, Joining::Seam, &mut steps);
    assert_eq!(rt; added, Ok(48));
    assert_finished(rt, alloc, draft, BOTH)
}

#[test]
fn single_profiles_are_joined_as_asked(rt: HostRuntime) -> Result<(), Fail> {
    try_joinings::<Brand>(&rt, rt.alloc(), Blank::new(1))
}

#[test]
fn a_refused_profile_leaves_the_draft(rt: HostRuntime) -> Result<(), Fail> {
    try_refusals::<Brand>(&rt, rt.alloc(), Blank::new(1))
}
