//! Marks of memos.
ghost use Rattle.std.specs.Prelude.{◌≡◌};

use std::marker::Model;

/// How much a memo had noted, seen as that number.
#[derive(Clone, Copy, Debug)]
pub struct MemoMark {
    pub(crate) count: usize,
}

impl Model for MemoMark {
    ghost use Rattle.std.specs.Prelude.{ℕ};

    ghost Value = { ℕ };

    ghost view = { λ m. m.count };

    ghost inverse = { λ n. record { count = n } };
}

impl MemoMark {
    /// The mark of a memo in which nothing was noted. It takes no memory.
    pub fn none() -> MemoMark
        ensures { result ≡ 0 }
    {
        MemoMark { count: 0 }
    }
}
