//! Marks of records.
use crate::places::HeadPlaces;
use crate::totals::Totals;
use std::marker::Model;

/// How much there was of records, for `back_to`.
#[derive(Clone, Copy, Debug)]
pub struct RecordsMark {
    pub(crate) extents: usize,
    pub(crate) texts: usize,
    pub(crate) backs: usize,
    pub(crate) totals: Totals,
    pub(crate) places: HeadPlaces,
}

impl Model for RecordsMark {
    ghost use Rattle.draft_records.specs.Marks.{Mark};

    ghost Value = { Mark };

    ghost view = { λ m. record { extents = m.extents; texts = m.texts; backs = m.backs; totals = m.totals; places = m.places } };

    ghost inverse = { λ m. record { extents = m.extents; texts = m.texts; backs = m.backs; totals = m.totals; places = m.places } };
}
