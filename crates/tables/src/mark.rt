//! Marks.
use std::marker::Model;

/// A length that a table had, to which it can be cut back, seen as that number of keys.
#[derive(Clone, Copy, Debug, PartialEq, Eq)]
pub struct Mark {
    len: u32,
}

impl Model for Mark {
    ghost use Rattle.std.specs.Prelude.{ℕ};

    ghost Value = { ℕ };

    ghost view = { λ m. m.len };

    ghost inverse = { λ n. record { len = n } };
}

impl Mark {
    ghost use Rattle.std.specs.Prelude.{◌≡◌};

    // The mark of a table with so many keys.
    pub(crate) fn at(len: u32) -> Mark
        ensures { result ≡ len }
    {
        Mark { len }
    }

    // How many keys are kept.
    pub(crate) fn len(&self) -> u32
        ensures { result ≡ self.now }
    {
        self.len
    }
}
