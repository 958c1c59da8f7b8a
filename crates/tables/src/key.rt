//! What a table can hold.
ghost use Rattle.std.specs.Prelude.{◌≡◌, true};

use std::hash::Hash;

/// A key of a table. Its `==` says true of equal values alone, so it tells any two keys apart.
pub trait Key: Eq + Hash {
    ghost same: { (a b : Self) → Self.eq a b ≡ true → a ≡ b };
}
