//! The head of a sample in columns.
ghost use Rattle.std.specs.Prelude.{◌≡◌, List, ◌∷◌, get_or, ◌<◌, ◌≤◌, length, IfOk};
ghost use Rattle.prof_rec.specs.Columns.{start};

use pb_wire::NoMemory;

/// What a sample holds besides its lists, and where these end in the columns.
#[derive(Clone, Copy, Debug)]
pub(crate) struct Head {
    pub stack_index: i32,
    pub link_index: i32,
    pub values_end: u32,
    pub attributes_end: u32,
    pub times_end: u32,
}

/// The head before the first sample: each list ends at 0.
#[inline(always)]
pub(crate) fn start_head() -> Head
    ensures { result ≡ start }
{
    Head {
        stack_index: 0,
        link_index: 0,
        values_end: 0,
        attributes_end: 0,
        times_end: 0,
    }
}

/// The head before that at a place.
#[inline(always)]
pub(crate) fn head_before(heads: &[Head], place: usize) -> Head
    requires { place ≤ length heads.now }
    ensures { result ≡ get_or (start ∷ heads.now) place start }
{
    if place == 0 {
        return start_head();
    }
    heads[place - 1]
}

/// The head at a place.
#[inline(always)]
pub(crate) fn head_at(heads: &[Head], place: usize) -> Head
    requires { place < length heads.now }
    ensures { result ≡ get_or heads.now place start }
{
    heads[place]
}

/// A number of elements as an end. It fails where it is 2^32 or more.
#[inline(always)]
pub(crate) fn end_of(len: usize) -> Result<u32, NoMemory>
    ensures { IfOk result (λ end. end ≡ len) }
{
    if len > u32::MAX as usize {
        return Err(NoMemory);
    }
    Ok(len as u32)
}
