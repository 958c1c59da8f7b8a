//! Marks of walks.
use crate::mark::MemoMark;
use key_tables::KeyTablesMark;

/// How much a walk had, for `back_to`. It holds none of it.
#[derive(Clone, Copy, Debug)]
pub struct WalkMark {
    pub keys: KeyTablesMark,
    pub memo: MemoMark,
}
