ghost use Rattle.std.specs.Prelude.{◌≡◌, ℤ, ◌<◌, ◌≤◌, ◌*◌, ◌^◌, length, false};
ghost use Rattle.schema.specs.Fits.{Fits, Lawful};
ghost use Rattle.schema.specs.Messages.{entry};
ghost use Rattle.schema.specs.Moved.{GivesIndexes, mentions, moved};
ghost use Rattle.schema.specs.Shape.{IsMessage, Shape, Table, Value};
ghost use Rattle.schema.specs.Spell.{spell};

/// A value whose indexes stay is the same value.
pub fn moved_nothing()
    ensures { (s : Shape) → (v : Value s) → moved (λ T i. i) s v ≡ v }
{}

/// With new indexes of 31 bits a value is written with at most five times as many bytes, and it fits.
pub fn moved_is_short()
    ensures short { (s : Shape) → (to : Table → ℤ → ℤ) → GivesIndexes to → (v : Value s) → Fits s v
        → length (spell s (moved to s v)) ≤ 5 * length (spell s v) }
    ensures fits { (s : Shape) → IsMessage s → Lawful s → (to : Table → ℤ → ℤ) → GivesIndexes to → (v : Value s) → Fits s v
        → length (spell s v) < 2 ^ 60 → Fits s (moved to s v) }
{}

/// No entry of a table leads back to that table, also not through the entries that it names.
pub fn entries_lead_elsewhere()
    ensures { (T : Table) → mentions T (entry T) ≡ false }
{}
