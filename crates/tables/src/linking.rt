//! Chains of places by bucket.
ghost use Rattle.std.specs.Prelude.{◌≡◌, ◌<◌, ◌≤◌, ◌+◌, ◌^◌, ℕ, length, get_or};
ghost use Rattle.tables.specs.Chains.{AreChains};
ghost use Rattle.tables.specs.KeyRun.{bucket, bucket_at};

use crate::key_row::KeyRow;

// The bucket of a hash among so many.
#[tactic(auto, using(std::proofs::lemmas::Nat::and_le_r))]
#[inline(always)]
pub(crate) fn bucket_of(hash: u32, many: usize) -> usize
    requires { 0 < many }
    ensures is { result ≡ bucket many hash }
    ensures within { result < many }
{
    hash as usize & (many - 1)
}

// Puts a place at the end of its bucket's chain.
pub(crate) fn link(rows: &[KeyRow], heads: &mut [u32], links: &mut [u32], place: usize)
    requires some { 0 < length heads.old }
    requires within { place < length rows.now }
    requires room { place < length links.old }
    requires few { place < 2 ^ 31 }
    requires chains { AreChains (bucket_at rows.now (length heads.old)) place heads.old links.old }
    ensures heads { length heads.new ≡ length heads.old }
    ensures links { length links.new ≡ length links.old }
    ensures chains { AreChains (bucket_at rows.now (length heads.old)) (place + 1) heads.new links.new }
{
    let bucket = bucket_of(rows[place].hash, heads.len());
    links[place] = heads[bucket];
    heads[bucket] = place as u32 + 1;
}

// Chains all places anew.
pub(crate) fn link_all(rows: &[KeyRow], heads: &mut [u32], links: &mut [u32])
    requires some { 0 < length heads.old }
    requires room { length rows.now ≤ length links.old }
    requires few { length rows.now < 2 ^ 31 }
    ensures heads { length heads.new ≡ length heads.old }
    ensures links { length links.new ≡ length links.old }
    ensures chains { AreChains (bucket_at rows.now (length heads.old)) (length rows.now) heads.new links.new }
{
    clear(heads);
    for place in 0..rows.len() {
        link(rows, heads, links, place);
    }
}

// Makes all heads lead nowhere.
fn clear(heads: &mut [u32])
    ensures len { length heads.new ≡ length heads.old }
    ensures none { (place : ℕ) → get_or heads.new place 0 ≡ 0 }
{
    for head in heads.iter_mut() {
        *head = 0;
    }
}

// Takes the places from `count` on out of their chains.
pub(crate) fn unlink(rows: &[KeyRow], heads: &mut [u32], links: &[u32], count: usize)
    requires within { count ≤ length rows.now }
    requires room { length rows.now ≤ length links.now }
    requires some { length rows.now ≤ length heads.old }
    requires chains { AreChains (bucket_at rows.now (length heads.old)) (length rows.now) heads.old links.now }
    ensures len { length heads.new ≡ length heads.old }
    ensures chains { AreChains (bucket_at rows.now (length heads.old)) count heads.new links.now }
{
    let mut left = rows.len();
    while left > count {
        left -= 1;
        heads[bucket_of(rows[left].hash, heads.len())] = links[left];
    }
}
