//! Keys in a run of bytes.
ghost use Rattle.std.specs.Prelude.{◌≡◌, ◌<◌, ◌≤◌, length, true, false};
ghost use Rattle.tables.specs.Keys.{IsAt};
ghost use Rattle.tables.specs.KeyRun.{AreEnds, begin_from, hash_at, keys_in};

// Where a key ends in the run, and its hash.
#[derive(Clone, Copy, Debug)]
pub(crate) struct KeyRow {
    pub(crate) end: u32,
    pub(crate) hash: u32,
}

// Where the key at a place begins, and at the number of keys where the next one would.
#[inline(always)]
pub(crate) fn begin_of(rows: &[KeyRow], place: usize) -> usize
    requires { place ≤ length rows.now }
    ensures { result ≡ begin_from 0 rows.now place }
{
    if place == 0 {
        0
    } else {
        rows[place - 1].end as usize
    }
}

// The bytes of the key at a place.
#[inline(always)]
pub(crate) fn key_at<'k>(run: &'k [u8], rows: &[KeyRow], place: usize) -> &'k [u8]
    requires ends { AreEnds 0 rows.now run.now }
    requires within { place < length rows.now }
    ensures { IsAt (keys_in rows.now run.now) result.now place }
{
    &run[begin_of(rows, place)..rows[place].end as usize]
}

// Whether the key at a place has these bytes. Keys of other hashes are not compared.
#[inline(always)]
pub(crate) fn is_key_at(run: &[u8], rows: &[KeyRow], place: usize, bytes: &[u8], hash: u32) -> bool
    requires ends { AreEnds 0 rows.now run.now }
    requires within { place < length rows.now }
    ensures yes { result ≡ true → IsAt (keys_in rows.now run.now) bytes.now place }
    ensures no { result ≡ false → IsAt (keys_in rows.now run.now) bytes.now place → ¬ (hash_at rows.now place ≡ hash) }
{
    rows[place].hash == hash && key_at(run, rows, place) == bytes
}
