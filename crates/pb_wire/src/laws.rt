//! Laws of messages.
ghost use Rattle.std.specs.Prelude.{◌≡◌, ℕ, Ok};
ghost use Rattle.schema.specs.Fits.{Fits};
ghost use Rattle.schema.specs.Merge.{merge};
ghost use Rattle.schema.specs.Shape.{Value, empty};
ghost use Rattle.schema.specs.Spell.{spell};

use crate::Rows;

/// What `write` puts is read again: the canonical spelling of a value that fits is read as that value, wherever it begins.
/// That what is read fits is a law of `schema_laws`.
pub fn reads_what_is_written<T: Rows>()
    ensures { (v : Value T.shape) → Fits T.shape v → (base : ℕ) → merge T.shape (empty T.shape) base (spell T.shape v) ≡ Ok v }
{}
