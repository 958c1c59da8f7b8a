//! A value that holds values of its own kind, and the lists in it.
use pb_wire::{BytesRef, TextRef};
use std::marker::Model;

/// A value of an attribute: one of eight forms. A double is its eight bytes as they are stored.
#[cycle(value)]
#[derive(Debug, Drop)]
pub enum Value<'a> {
    /// No member is set.
    Empty,
    Text(TextRef<'a>),
    Flag(bool),
    Int(i64),
    Double([u8; 8]),
    Items(Values<'a>),
    Pairs(KeyValues<'a>),
    Raw(BytesRef<'a>),
}

/// A key and its value.
#[cycle(value)]
#[derive(Debug, Drop)]
pub struct KeyValue<'a> {
    pub key: TextRef<'a>,
    pub value: Value<'a>,
}

/// Values in order.
#[cycle(value)]
#[derive(Debug, Drop)]
pub struct Values<'a> {
    pub(crate) inner: Vec<Value<'a>>,
    // The length of its elements' canonical spelling, in bytes.
    pub(crate) bytes: u64,
}

impl<'a> Model for Values<'a> {
    ghost use Rattle.std.specs.Prelude.{List, map};
    ghost use Rattle.std.specs.Coded.{coded_list};
    ghost use Rattle.schema.specs.AnyValue.{AnyValue};
    ghost use Rattle.any_value.specs.Codes.{any_code};
    ghost use Rattle.any_value.specs.Sizes.{list_size};

    ghost Value = { List AnyValue };

    ghost coded = { coded_list any_code };

    ghost use Rattle.any_value.specs.Views.{any_view};

    ghost view = { λ a. map any_view a.inner.items };

    ghost use Rattle.schema.specs.AnySpell.{values_text};
    ghost use Rattle.schema.specs.AnyValue.{values_of};
    ghost use Rattle.any_value.specs.ListLengths.{KeepsLength};

    ghost invariant = { λ a. KeepsLength a.bytes (values_text (values_of (map any_view a.inner.items))) };

    ghost size = { list_size };

    ghost use Rattle.any_value.specs.Falls.{values_fall};
    ghost use Rattle.std.proofs.Common.{arith};

    ghost size_decreases = { λ a h. Prim.omega (arith, values_fall a.inner.items) };
}

/// Keys and their values in order.
#[cycle(value)]
#[derive(Debug, Drop)]
pub struct KeyValues<'a> {
    pub(crate) inner: Vec<KeyValue<'a>>,
    // The length of its elements' canonical spelling, in bytes.
    pub(crate) bytes: u64,
}

impl<'a> Model for KeyValues<'a> {
    ghost use Rattle.std.specs.Prelude.{List, map};
    ghost use Rattle.std.specs.Coded.{coded_list};
    ghost use Rattle.schema.specs.AnyValue as any;
    ghost use Rattle.any_value.specs.Codes.{pair_code};
    ghost use Rattle.any_value.specs.Sizes.{pair_list_size};

    ghost Value = { List any.KeyValue };

    ghost coded = { coded_list pair_code };

    ghost use Rattle.any_value.specs.Views.{pair_view};

    ghost view = { λ a. map pair_view a.inner.items };

    ghost use Rattle.schema.specs.AnySpell.{pairs_text};
    ghost use Rattle.any_value.specs.ListLengths.{KeepsLength};

    ghost invariant = { λ a. KeepsLength a.bytes (pairs_text (any.pairs_of (map pair_view a.inner.items))) };

    ghost size = { pair_list_size };

    ghost use Rattle.any_value.specs.Falls.{pairs_fall};
    ghost use Rattle.std.proofs.Common.{arith};

    ghost size_decreases = { λ a h. Prim.omega (arith, pairs_fall a.inner.items) };
}
