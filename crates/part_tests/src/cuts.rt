//! Messages that are cut into parts.
ghost use Rattle.std.specs.Prelude.{◌<◌, ◌≤◌};
ghost use Rattle.otlp_msg.specs.Message.{message_limit};

use crate::bodies::{CPU, SCOPES, X, long_body};
use dict_build::BuildFault;
use otlp_msg::{Messages, read_message};
use outside::FixedSeeds;
use split_merge::Splitter;
use std::alloc::Global;
use std::process::Abort;
use std::test::Fail;

// The profile of cpu twice: in one scope record, and in two resource records.
const CPU_TWICE: &[u8] =
    b"\x0a\x12\x12\x10\x12\x06\x0a\x04\x08\x01\x10\x02\x12\x06\x0a\x04\x08\x01\x10\x02\x12\x17\x0a\x00\x12\x00\x1a\x00\x22\x00\x2a\x00\x2a\x03cpu\x2a\x02ns\x32\x00\x3a\x00";

const CPU_APART: &[u8] =
    b"\x0a\x0a\x12\x08\x12\x06\x0a\x04\x08\x01\x10\x02\x0a\x0a\x12\x08\x12\x06\x0a\x04\x08\x01\x10\x02\x12\x17\x0a\x00\x12\x00\x1a\x00\x22\x00\x2a\x00\x2a\x03cpu\x2a\x02ns\x32\x00\x3a\x00";

// Two scope records with equal heads and one empty profile each; and with the empty dictionary.
const EQUAL_SCOPES: &[u8] = b"\x0a\x08\x12\x02\x12\x00\x12\x02\x12\x00";

const BOTH_SCOPES: &[u8] =
    b"\x0a\x08\x12\x02\x12\x00\x12\x02\x12\x00\x12\x0e\x0a\x00\x12\x00\x1a\x00\x22\x00\x2a\x00\x32\x00\x3a\x00";

// A resource record without scope records, and one with a scope record that holds no profile.
const NO_PROFILES: &[u8] = b"\x0a\x00\x0a\x02\x12\x00";

// Asserts that the messages of these bodies are cut into these parts, and into no more.
fn assert_parts(
    rt: &impl Abort,
    alloc: Global,
    bodies: &[&[u8]],
    limit: u64,
    parts: &[&[u8]],
) -> Result<(), Fail>
    requires some { 0 < limit }
    requires most { limit ≤ message_limit }
{
    let mut messages = Messages::begin(alloc);
    for body in bodies {
        add(alloc, &mut messages, body)?;
    }
    let mut splitter = Splitter::begin(alloc, limit, &messages, &mut FixedSeeds)?;
    for part in parts {
        assert_next(rt, alloc, &mut splitter, Some(*part))?;
    }
    assert_next(rt, alloc, &mut splitter, None)?;
    assert_next(rt, alloc, &mut splitter, None)
}

// Asserts that this is the next part, if there is one.
fn assert_next(
    rt: &impl Abort,
    alloc: Global,
    splitter: &mut Splitter<'_, '_, FixedSeeds>,
    part: Option<&[u8]>,
) -> Result<(), Fail> {
    match splitter.next(alloc) {
        Ok(Some(bytes)) => assert_eq!(rt; Some(bytes.as_slice()), part),
        Ok(None) => assert_eq!(rt; None, part),
        Err(_) => assert!(rt; false),
    }
    Ok(())
}

// Adds the message of a body, if it is one.
fn add<'a>(alloc: Global, messages: &mut Messages<'a>, body: &'a [u8]) -> Result<(), Fail> {
    if let Ok(message) = read_message(alloc, body) {
        messages.add(message)?;
    }
    Ok(())
}

#[test]
fn parts_are_the_longest_that_fit(rt: HostRuntime) -> Result<(), Fail> {
    let alloc = rt.alloc();
    assert_parts(&rt, alloc, &[CPU_TWICE], 45, &[CPU_TWICE])?;
    assert_parts(&rt, alloc, &[CPU_TWICE], 44, &[CPU, CPU])?;
    assert_parts(&rt, alloc, &[CPU, NO_PROFILES, CPU], 49, &[CPU_APART])?;
    assert_parts(&rt, alloc, &[SCOPES], 47, &[CPU, X, CPU])?;
    assert_parts(&rt, alloc, &[EQUAL_SCOPES], 1000, &[BOTH_SCOPES])?;
    assert_parts(&rt, alloc, &[NO_PROFILES], 48, &[])
}

// A part of one profile that is too long: its 33,554,415 bytes, two heads of 5 bytes, and the dictionary of 19.
#[test]
fn a_refused_part_is_refused_again(rt: HostRuntime) -> Result<(), Fail> {
    let alloc = rt.alloc();
    let body = long_body(alloc)?;
    let mut messages = Messages::begin(alloc);
    add(alloc, &mut messages, CPU)?;
    add(alloc, &mut messages, &body)?;
    add(alloc, &mut messages, CPU)?;
    let mut splitter = Splitter::begin(alloc, 33_554_432, &messages, &mut FixedSeeds)?;
    assert_next(&rt, alloc, &mut splitter, Some(CPU))?;
    for call in 0..2 {
        let refused = splitter.next(alloc);
        assert!(rt;
            matches!(&refused, Err(BuildFault::OutputLimit { size: 33_554_444 })),
            "call {call}"
        );
    }
    Ok(())
}
