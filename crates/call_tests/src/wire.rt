//! Calls on bytes, texts and pieces that no row reaches.
use pb_wire::{Blob, Piece, Pieces, Text};
use std::alloc::Global;
use std::process::Abort;
use std::test::Fail;

fn keeps_bytes(rt: &impl Abort, alloc: Global) -> Result<(), Fail> {
    let mut bytes = Blob::with_room(alloc, 4)?;
    bytes.append(b"abc")?;
    bytes.push(100)?;
    assert_eq!(rt; bytes.as_slice(), b"abcd".as_slice());
    Ok(())
}

fn keeps_texts(rt: &impl Abort, alloc: Global) -> Result<(), Fail> {
    let mut text = Text::copy_of(alloc, "ab")?;
    text.append("cd")?;
    assert_eq!(rt; text.as_str(), "abcd");
    Ok(())
}

fn keeps_pieces(rt: &impl Abort, alloc: Global) -> Result<(), Fail> {
    let mut pieces = Pieces::begin(alloc);
    for (bytes, base) in [(b"ab".as_slice(), 10), (b"c", 40)] {
        assert!(rt; bytes.len() < 3);
        pieces.add(Piece { bytes, base })?;
    }
    let second = pieces.get(1).ok_or("no piece")?;
    assert_eq!(rt; (second.base, second.bytes), (40, b"c".as_slice()));
    assert!(rt; pieces.get(2).is_none());
    Ok(())
}

#[test]
fn keeps_bytes_texts_and_pieces(rt: HostRuntime) -> Result<(), Fail> {
    let alloc = rt.alloc();
    keeps_bytes(&rt, alloc)?;
    keeps_texts(&rt, alloc)?;
    keeps_pieces(&rt, alloc)
}
