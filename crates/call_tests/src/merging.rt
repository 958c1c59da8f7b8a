//! Messages that are merged, against bytes that were worked out by hand from the definition of canonical bytes.
use dict_build::BuildFault;
use otlp_msg::{Messages, read_message};
use outside::FixedSeeds;
use pb_wire::Blob;
use split_merge::{Merging, merge};
use std::alloc::Global;
use std::process::Abort;
use std::test::Fail;

// One profile with the type cpu in ns, and its canonical bytes twice under one resource and one scope.
const ONE: &[u8] =
    b"\x0a\x0a\x12\x08\x12\x06\x0a\x04\x08\x02\x10\x03\x12\x10\x2a\x00\x2a\x03cpu\x2a\x03cpu\x2a\x02ns";

const TWICE: &[u8] =
    b"\x0a\x12\x12\x10\x12\x06\x0a\x04\x08\x01\x10\x02\x12\x06\x0a\x04\x08\x01\x10\x02\x12\x17\x0a\x00\x12\x00\x1a\x00\x22\x00\x2a\x00\x2a\x03cpu\x2a\x02ns\x32\x00\x3a\x00";

// Those of no records: a dictionary of seven zero entries.
const NONE: &[u8] = b"\x12\x0e\x0a\x00\x12\x00\x1a\x00\x22\x00\x2a\x00\x32\x00\x3a\x00";

// What is in front of the 33,554,412 bytes of a payload in a profile: with them it is a message as long as one may be.
const LONG_FRONT: &[u8] =
    b"\x0a\xfb\xff\xff\x0f\x12\xf6\xff\xff\x0f\x12\xf1\xff\xff\x0f\x52\xec\xff\xff\x0f";

// Asserts that these bytes were built.
fn assert_built(rt: &impl Abort, built: Result<Blob, BuildFault>, want: &[u8]) -> Result<(), Fail> {
    match built {
        Ok(bytes) => assert_eq!(rt; bytes.as_slice(), want),
        Err(BuildFault::OutputLimit { .. }) => assert_eq!(rt; b"output limit".as_slice(), want),
        Err(BuildFault::NoMemory) => assert_eq!(rt; b"no memory".as_slice(), want),
    }
    Ok(())
}

// Asserts that nothing was built, since there would be so many bytes.
fn assert_limit(rt: &impl Abort, built: Result<Blob, BuildFault>, want: u64) -> Result<(), Fail> {
    match built {
        Err(BuildFault::OutputLimit { size }) => assert_eq!(rt; size, want),
        _ => assert_eq!(rt; 0, want),
    }
    Ok(())
}

// Adds the message of a body, if it is one.
fn add<'a>(alloc: Global, messages: &mut Messages<'a>, body: &'a [u8]) -> Result<(), Fail> {
    if let Ok(message) = read_message(alloc, body) {
        messages.add(message)?;
    }
    Ok(())
}

#[test]
fn merges_none_and_one_twice(rt: HostRuntime) -> Result<(), Fail> {
    let mut messages = Messages::begin(rt.alloc());
    assert_built(&rt, merge(rt.alloc(), &messages, &mut FixedSeeds), NONE)?;
    add(rt.alloc(), &mut messages, ONE)?;
    add(rt.alloc(), &mut messages, ONE)?;
    assert!(rt; messages.get(1).is_some());
    assert!(rt; messages.get(2).is_none());
    assert_built(&rt, merge(rt.alloc(), &messages, &mut FixedSeeds), TWICE)
}

// The first two come to 33,554,465 bytes: the payload's profile of 33,554,422 and one of 8, two heads of 5 and 25 of the tables.
#[test]
fn tells_the_size_of_the_shortest_prefix(rt: HostRuntime) -> Result<(), Fail> {
    let mut long = Vec::new(rt.alloc());
    long.extend_from_slice(LONG_FRONT)?;
    long.resize(33_554_432, 0)?;
    let mut messages = Messages::begin(rt.alloc());
    add(rt.alloc(), &mut messages, ONE)?;
    add(rt.alloc(), &mut messages, &long)?;
    add(rt.alloc(), &mut messages, ONE)?;
    assert_limit(
        &rt,
        merge(rt.alloc(), &messages, &mut FixedSeeds),
        33_554_465,
    )
}

#[test]
fn joins_messages_that_are_let_go(rt: HostRuntime) -> Result<(), Fail> {
    let mut merging = Merging::begin(rt.alloc(), &mut FixedSeeds)?;
    for _message in 0..2 {
        if let Ok(message) = read_message(rt.alloc(), ONE) {
            merging.add(rt.alloc(), &message)?;
        }
    }
    assert_built(&rt, merging.finish(), TWICE)
}
