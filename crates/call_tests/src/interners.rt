//! Tables of keys under the same calls: the searched one, and the two hashed ones.
ghost use Rattle.std.specs.Prelude.{◌≡◌, ◌+◌, ◌<◌, ◌≤◌, [], length, OnOk};

use pb_wire::{Blob, NoMemory};
use std::alloc::Global;
use std::hash::{BuildHasherDefault, FoldHasher};
use std::marker::Brand;
use std::process::Abort;
use std::sync::ledger::{Blank, Ledger};
use std::test::Fail;
use tables::{BytesTable, EntryKey, Interner, SearchedTable, Steps, Table};

// The hashed table with the fixed seed.
type Hashed = Table<EntryKey, BuildHasherDefault<FoldHasher>>;

// The table of bytes with the fixed seed.
type OfBytes = BytesTable<BuildHasherDefault<FoldHasher>>;

// The searched table.
type Searched = SearchedTable<EntryKey>;

// The answer for a key of these bytes.
fn ask<T: Interner<EntryKey>, L: Ledger>(
    alloc: Global,
    table: &mut T,
    bytes: &[u8],
    steps: &mut Steps<L>,
) -> Result<u32, NoMemory>
    requires { length (T.keys table.old) < 2000 }
    ensures kept { length (T.keys table.old) ≤ length (T.keys table.new) }
    ensures one { length (T.keys table.new) ≤ length (T.keys table.old) + 1 }
    ensures counted { OnOk result (steps.new ≡ steps.old + 1) }
{
    let key = EntryKey::copy_of(alloc, bytes)?;
    table.intern(key, steps)
}

// The answers for `a`, `b` and `a`. That they are three steps is proved.
fn ask_three<T: Interner<EntryKey>, L: Ledger>(
    alloc: Global,
    table: &mut T,
    steps: &mut Steps<L>,
) -> Result<[u32; 3], NoMemory>
    requires { length (T.keys table.old) < 1000 }
    ensures { OnOk result (steps.new ≡ steps.old + 3) }
{
    let first = ask(alloc, table, b"a", steps)?;
    let second = ask(alloc, table, b"b", steps)?;
    let third = ask(alloc, table, b"a", steps)?;
    Ok([first, second, third])
}

// In a table without keys.
fn try_a_few<T: Interner<EntryKey>, L: Ledger>(
    rt: &impl Abort,
    alloc: Global,
    table: &mut T,
    blank: Blank,
) -> Result<(), Fail>
    requires name { blank.name ≡ L.name }
    requires parts { blank.parts ≡ L.parts }
    requires some { 0 < blank.parts }
    requires empty { T.keys table.old ≡ [] }
{
    let mut steps = Steps::<L>::begin(blank);
    let none = table.mark();
    assert_eq!(rt; ask_three(alloc, table, &mut steps)?, [0, 1, 0]);
    table.back_to(none);
    assert_eq!(rt; ask(alloc, table, b"a", &mut steps)?, 0);
    let mark = table.mark();
    assert_eq!(rt; ask(alloc, table, b"b", &mut steps)?, 1);
    assert_eq!(rt; table.len(), 2);
    table.back_to(mark);
    assert_eq!(rt; table.len(), 1);
    let moved = EntryKey::from_blob(Blob::copy_of(alloc, b"b")?);
    assert_eq!(rt; table.intern(moved, &mut steps)?, 1);
    for (index, want) in [
        (0, Some(b"a".as_slice())),
        (1, Some(b"b".as_slice())),
        (2, None),
    ] {
        let held = table.get(index).map(EntryKey::as_slice);
        assert_eq!(rt; held, want, "at {index}");
    }
    Ok(())
}

// The answers of a table of bytes for `a`, `b` and `a`. That they are three steps is proved.
fn ask_three_bytes<L: Ledger>(
    table: &mut OfBytes,
    steps: &mut Steps<L>,
) -> Result<[u32; 3], NoMemory>
    requires { length table.old < 1000 }
    ensures kept { length table.old ≤ length table.new }
    ensures counted { OnOk result (steps.new ≡ steps.old + 3) }
{
    let first = table.intern(b"a", steps)?;
    let second = table.intern(b"b", steps)?;
    let third = table.intern(b"a", steps)?;
    Ok([first, second, third])
}

// In a table that holds the key of no bytes alone.
fn try_bytes<L: Ledger>(rt: &impl Abort, table: &mut OfBytes, blank: Blank) -> Result<(), Fail>
    requires name { blank.name ≡ L.name }
    requires parts { blank.parts ≡ L.parts }
    requires some { 0 < blank.parts }
    requires few { length table.old < 1000 }
{
    let mut steps = Steps::<L>::begin(blank);
    let mark = table.mark();
    assert_eq!(rt; ask_three_bytes(table, &mut steps)?, [1, 2, 1]);
    table.back_to(mark);
    assert_eq!(rt; table.len(), 1);
    assert_eq!(rt; table.intern(b"b", &mut steps)?, 1);
    assert_eq!(rt; table.intern(b"", &mut steps)?, 0);
    for (index, want) in [
        (0, Some(b"".as_slice())),
        (1, Some(b"b".as_slice())),
        (2, None),
    ] {
        assert_eq!(rt; table.get(index), want, "at {index}");
    }
    Ok(())
}

// The next number of a simple generator.
fn next_number(state: u32) -> u32 {
    state.wrapping_mul(1_664_525).wrapping_add(1_013_904_223)
}

// The same calls on both tables: some hundred keys of one to three bytes, with repeats, and now and then a cut.
fn try_both<L: Ledger>(
    rt: &impl Abort,
    alloc: Global,
    hashed: &mut OfBytes,
    searched: &mut Searched,
    blank: Blank,
) -> Result<(), Fail>
    requires name { blank.name ≡ L.name }
    requires parts { blank.parts ≡ L.parts }
    requires some { 0 < blank.parts }
{
    let mut steps = Steps::<L>::begin(blank);
    let mut state = 1u32;
    for call in 0u32..900 {
        state = next_number(state);
        let bytes = (state / 65_536 % 300).to_le_bytes();
        let key = &bytes[..1 + state as usize % 3];
        assert!(rt; hashed.len() < 1000 && searched.len() < 1000);
        let marks = (hashed.mark(), searched.mark());
        let place = hashed.intern(key, &mut steps)?;
        assert_eq!(rt;
            place,
            ask(alloc, searched, key, &mut steps)?,
            "call {call}"
        );
        if call % 7 == 0 {
            hashed.back_to(marks.0);
            searched.back_to(marks.1);
        }
        assert_eq!(rt; hashed.len(), searched.len(), "call {call}");
    }
    for index in 0..hashed.len() + 1 {
        assert_eq!(rt;
            hashed.get(index),
            searched.get(index).map(EntryKey::as_slice),
            "at {index}"
        );
    }
    assert!(rt; hashed.len() > 300);
    Ok(())
}

#[test]
fn a_hashed_table_answers_first_places(rt: HostRuntime) -> Result<(), Fail> {
    let mut table = Table::begin(rt.alloc(), BuildHasherDefault::<FoldHasher>::new())?;
    try_a_few::<Hashed, Brand>(&rt, rt.alloc(), &mut table, Blank::new(1))
}

#[test]
fn a_searched_table_answers_first_places(rt: HostRuntime) -> Result<(), Fail> {
    let mut table = SearchedTable::begin(rt.alloc());
    try_a_few::<Searched, Brand>(&rt, rt.alloc(), &mut table, Blank::new(1))
}

#[test]
fn a_table_of_bytes_answers_first_places(rt: HostRuntime) -> Result<(), Fail> {
    let hasher = BuildHasherDefault::<FoldHasher>::new();
    let mut table = BytesTable::start(rt.alloc(), hasher, b"")?;
    try_bytes::<Brand>(&rt, &mut table, Blank::new(1))
}

#[test]
fn bytes_have_the_places_that_a_search_finds(rt: HostRuntime) -> Result<(), Fail> {
    let alloc = rt.alloc();
    let mut hashed = BytesTable::begin(alloc, BuildHasherDefault::<FoldHasher>::new());
    let mut searched = SearchedTable::begin(alloc);
    try_both::<Brand>(&rt, alloc, &mut hashed, &mut searched, Blank::new(1))
}
