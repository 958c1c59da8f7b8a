ghost use Rattle.std.specs.Prelude.{◌≡◌, ℕ, ◌<◌, List, ◌++◌, length, Ok, Err, ◌↔◌};
ghost use Rattle.schema.specs.Fault.{Reason};
ghost use Rattle.schema.specs.Field.{Field};
ghost use Rattle.schema.specs.FirstFault.{BadField};
ghost use Rattle.schema.specs.Spelling.{PlacedField, Spells, SpellsAt, SpellsField, fields_of, trace_of};
ghost use Rattle.schema.specs.Decoding.{field_at, trace};

/// A byte list spells one field list.
pub fn spelled_once()
    ensures { (bytes : List ℕ) → (fs : List Field) → (gs : List Field) → Spells bytes fs → Spells bytes gs → fs ≡ gs }
{}

/// The field at the front of bytes is the one that they begin with, and where there is none, the reason is that of what
/// they begin with.
pub fn reads_one_field()
    ensures right { (bytes : List ℕ) → (f : Field) → (rest : List ℕ) → (field_at bytes ≡ Ok (f, rest)) ↔ ((one : List ℕ) × (bytes ≡ one ++ rest) × SpellsField one f) }
    ensures wrong { (bytes : List ℕ) → (r : Reason) → 0 < length bytes → (field_at bytes ≡ Err r) ↔ BadField bytes r }
{}

/// Bytes are read to their end exactly where they spell fields, as those fields, each at its place.
pub fn reads_what_is_spelled()
    ensures traced { (base : ℕ) → (bytes : List ℕ) → (ps : List PlacedField) → (trace base bytes ≡ trace_of ps) ↔ SpellsAt base bytes ps }
    ensures places { (base : ℕ) → (bytes : List ℕ) → (fs : List Field) → Spells bytes fs ↔ ((ps : List PlacedField) × SpellsAt base bytes ps × (fields_of ps ≡ fs)) }
{}
