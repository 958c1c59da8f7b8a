//! Bytes that are keys, which lie one after the other in one run.
ghost use Rattle.std.specs.Prelude.{◌≡◌, ◌+◌, ◌-◌, ◌^◌, ◌<◌, ◌≤◌, ◌++◌, ◌∷◌, [], ◌↔◌, length, slice_get, take, IsSome, MatchOption, OnErr, OnOk};
ghost use Rattle.std.specs.Option.{option_copied};
ghost use Rattle.tables.specs.Keys.{IsAt};
ghost use Rattle.tables.specs.Chains.{AreChains};
ghost use Rattle.tables.specs.KeyRun.{AreEnds, AreKept, IsMissing, IsPut, begin_from, bucket_at, keys_in};

use crate::key_row::{KeyRow, begin_of, is_key_at, key_at};
use crate::linking::{bucket_of, link, link_all, unlink};
use pb_wire::NoMemory;
use std::alloc::Global;

// The fewest buckets of keys that there are. Their number is doubled as often as need be, so it is a power of two, and its mask takes
// the bucket from a hash. Chains are right with any number; only with such a one are all buckets used.
const FEWEST_BUCKETS: usize = 8;

// The most bytes of a run, whose ends have 32 bits.
const MOST_BYTES: usize = 0xFFFF_FFFF;

// The bytes of the keys, their rows, and the chains by which they are found.
#[derive(Drop)]
pub(crate) struct KeyRun {
    pub(crate) run: Vec<u8>,
    pub(crate) rows: Vec<KeyRow>,
    heads: Vec<u32>,
    links: Vec<u32>,
}

// No keys. It takes no memory.
pub(crate) fn no_keys(alloc: Global) -> KeyRun
    ensures kept { AreKept result.run.items result.rows.items result.heads.items result.links.items }
    ensures none { keys_in result.rows.items result.run.items ≡ [] }
{
    KeyRun {
        run: Vec::new(alloc),
        rows: Vec::new(alloc),
        heads: Vec::new(alloc),
        links: Vec::new(alloc),
    }
}

// The number of keys. It takes no memory.
pub(crate) fn count(keys: &KeyRun) -> usize
    ensures { result ≡ length (keys_in keys.now.rows.items keys.now.run.items) }
{
    keys.rows.len()
}

// The bytes of the key at a place, if there is one. It takes no memory.
pub(crate) fn get(keys: &KeyRun, place: usize) -> Option<&[u8]>
    requires { AreKept keys.now.run.items keys.now.rows.items keys.now.heads.items keys.now.links.items }
    ensures value { option_copied result ≡ slice_get (keys_in keys.now.rows.items keys.now.run.items) place }
    ensures within { IsSome result ↔ (place < length (keys_in keys.now.rows.items keys.now.run.items)) }
{
    if place < count(keys) {
        Some(key_at(&keys.run, &keys.rows, place))
    } else {
        None
    }
}

// The place of the key of these bytes and this hash, if there is one. It takes no memory.
pub(crate) fn find(keys: &KeyRun, bytes: &[u8], hash: u32) -> Option<usize>
    requires { AreKept keys.now.run.items keys.now.rows.items keys.now.heads.items keys.now.links.items }
    ensures { MatchOption result (IsMissing keys.now.rows.items keys.now.run.items bytes.now hash) (IsAt (keys_in keys.now.rows.items keys.now.run.items) bytes.now) }
{
    let many = keys.heads.len();
    if many == 0 {
        return None;
    }
    let mut next = keys.heads[bucket_of(hash, many)];
    while next != 0 {
        let place = next as usize - 1;
        if is_key_at(&keys.run, &keys.rows, place, bytes, hash) {
            return Some(place);
        }
        next = keys.links[place];
    }
    None
}

// Room for the links of one key more. If there was none, there are twice as many buckets.
fn make_room(rows: &[KeyRow], heads: &mut Vec<u32>, links: &mut Vec<u32>) -> Result<(), NoMemory>
    requires few { length rows.now < 2 ^ 31 }
    requires room { length rows.now ≤ length heads.old.items }
    requires steps { length heads.old.items ≤ length links.old.items }
    requires chains { AreChains (bucket_at rows.now (length heads.old.items)) (length rows.now) heads.old.items links.old.items }
    ensures ok { OnOk result (length rows.now < length heads.new.items) }
    ensures room { length rows.now ≤ length heads.new.items }
    ensures steps { length heads.new.items ≤ length links.new.items }
    ensures chains { AreChains (bucket_at rows.now (length heads.new.items)) (length rows.now) heads.new.items links.new.items }
{
    if rows.len() < heads.len() {
        return Ok(());
    }
    let many = (2 * rows.len()).max(FEWEST_BUCKETS);
    if links.len() < many {
        links.resize(many, 0)?;
    }
    heads.resize(many, 0)?;
    link_all(rows, heads, links);
    Ok(())
}

// Puts the bytes of a key and its row at the end.
fn put(run: &mut Vec<u8>, rows: &mut Vec<KeyRow>, bytes: &[u8], hash: u32) -> Result<(), NoMemory>
    ensures ok { OnOk result (IsPut run.old.items rows.old.items bytes.now hash run.new.items rows.new.items) }
    ensures run { OnErr result (run.new.items ≡ run.old.items) }
    ensures rows { OnErr result (rows.new.items ≡ rows.old.items) }
{
    let end = run.len() + bytes.len();
    if end > MOST_BYTES {
        return Err(NoMemory);
    }
    rows.reserve(1)?;
    run.extend_from_slice(bytes)?;
    rows.push(KeyRow {
        end: end as u32,
        hash,
    })?;
    Ok(())
}

// Puts a key at the end, of these bytes and this hash.
pub(crate) fn add(keys: &mut KeyRun, bytes: &[u8], hash: u32) -> Result<(), NoMemory>
    requires kept { AreKept keys.old.run.items keys.old.rows.items keys.old.heads.items keys.old.links.items }
    requires few { length (keys_in keys.old.rows.items keys.old.run.items) < 2 ^ 31 - 1 }
    ensures kept { AreKept keys.new.run.items keys.new.rows.items keys.new.heads.items keys.new.links.items }
    ensures ok { OnOk result (IsPut keys.old.run.items keys.old.rows.items bytes.now hash keys.new.run.items keys.new.rows.items) }
    ensures run { OnErr result (keys.new.run.items ≡ keys.old.run.items) }
    ensures rows { OnErr result (keys.new.rows.items ≡ keys.old.rows.items) }
{
    make_room(&keys.rows, &mut keys.heads, &mut keys.links)?;
    let place = keys.rows.len();
    put(&mut keys.run, &mut keys.rows, bytes, hash)?;
    link(&keys.rows, &mut keys.heads, &mut keys.links, place);
    Ok(())
}

// Drops all keys but the first ones, of which so many are left. It takes no memory.
pub(crate) fn cut_back(keys: &mut KeyRun, left: usize)
    requires kept { AreKept keys.old.run.items keys.old.rows.items keys.old.heads.items keys.old.links.items }
    requires within { left ≤ length (keys_in keys.old.rows.items keys.old.run.items) }
    ensures kept { AreKept keys.new.run.items keys.new.rows.items keys.new.heads.items keys.new.links.items }
    ensures keys { keys_in keys.new.rows.items keys.new.run.items ≡ take left (keys_in keys.old.rows.items keys.old.run.items) }
    ensures rows { keys.new.rows.items ≡ take left keys.old.rows.items }
{
    unlink(&keys.rows, &mut keys.heads, &keys.links, left);
    keys.run.truncate(begin_of(&keys.rows, left));
    keys.rows.truncate(left);
}
