//! Marks of tables of keys.
use std::marker::Model;
use tables::Mark;

/// How many keys each table had, and the length of their spelling.
#[derive(Clone, Copy, Debug)]
pub struct KeyTablesMark {
    pub(crate) lengths: [Mark; 7],
    pub(crate) len: u64,
}

impl Model for KeyTablesMark {
    ghost use Rattle.key_tables.specs.Keys.{Counts};

    ghost Value = { Counts };

    ghost view = { λ m. record { lengths = m.lengths; len = m.len } };

    ghost inverse = { λ c. record { lengths = c.lengths; len = c.len } };
}
