ghost use Rattle.std.specs.Prelude.{◌≡◌, ℕ, ◌+◌, ◌*◌, ◌<◌, ◌≤◌, ◌^◌, List, ◌++◌, length, Ok, true};
ghost use Rattle.schema.specs.Each.{Each};
ghost use Rattle.schema.specs.Fits.{Fits, Lawful, is_lawful};
ghost use Rattle.schema.specs.Parts.{Part, joined};
ghost use Rattle.schema.specs.Merge.{merge, merge_all};
ghost use Rattle.schema.specs.Shape.{IsMessage, Shape, Value, empty};
ghost use Rattle.schema.specs.Spell.{spell, spell_onto, len_onto};
ghost use Rattle.schema.specs.Typed.{IsShallow, IsTyped};

/// Rows that are appended one after the other are the spelling, and the lengths of the rows add up to its length. That a
/// program computes the length of a row right is a clause of that program.
pub fn spelling_has_its_length()
    ensures appended { (s : Shape) → (out : List ℕ) → (v : Value s) → spell_onto s out v ≡ out ++ spell s v }
    ensures counted { (s : Shape) → (len : ℕ) → (v : Value s) → len_onto s len v ≡ len + length (spell s v) }
{}

/// The spelling of a value that fits is read as that value, wherever it begins, if the rows can be told apart.
pub fn reads_back()
    ensures { (s : Shape) → IsMessage s → Lawful s → (v : Value s) → Fits s v → (base : ℕ) → merge s (empty s) base (spell s v) ≡ Ok v }
{}

/// The test of a shape says that its rows can be told apart.
pub fn test_of_lawful()
    ensures { (s : Shape) → is_lawful s ≡ true → Lawful s }
{}

/// A value that is read of bytes fits, in one part or in several, if sixteen times their number can be counted. Its
/// spelling may be longer than the bytes, since a negative number of 32 bits is read of five and is spelled with ten.
pub fn read_values_fit()
    ensures whole { (s : Shape) → IsMessage s → Lawful s → (base : ℕ) → (bytes : List ℕ) → (v : Value s)
        → Each (λ b. b < 256) bytes → 16 * length bytes < 2 ^ 64 → merge s (empty s) base bytes ≡ Ok v → Fits s v }
    ensures short { (s : Shape) → (base : ℕ) → (bytes : List ℕ) → (v : Value s)
        → Each (λ b. b < 256) bytes → 16 * length bytes < 2 ^ 64 → merge s (empty s) base bytes ≡ Ok v → length (spell s v) ≤ 16 * length bytes }
    ensures parts { (s : Shape) → IsMessage s → Lawful s → (parts : List Part) → (v : Value s)
        → Each (λ b. b < 256) (joined parts) → 16 * length (joined parts) < 2 ^ 64 → merge_all s (empty s) parts ≡ Ok v → Fits s v }
    ensures parts_short { (s : Shape) → (parts : List Part) → (v : Value s)
        → Each (λ b. b < 256) (joined parts) → 16 * length (joined parts) < 2 ^ 64 → merge_all s (empty s) parts ≡ Ok v → length (spell s v) ≤ 16 * length (joined parts) }
{}

/// What is read of bytes is read again of its spelling, wherever either begins.
pub fn reads_what_was_read()
    ensures { (s : Shape) → IsMessage s → Lawful s → (base : ℕ) → (bytes : List ℕ) → (v : Value s)
        → Each (λ b. b < 256) bytes → 16 * length bytes < 2 ^ 64 → merge s (empty s) base bytes ≡ Ok v
        → (other : ℕ) → merge s (empty s) other (spell s v) ≡ Ok v }
{}

/// A value of a program's types fits where its AnyValues are not too deep and its spelling is short.
pub fn typed_values_fit()
    ensures { (s : Shape) → IsMessage s → Lawful s → (v : Value s) → IsTyped s v → IsShallow s v → length (spell s v) < 2 ^ 64 → Fits s v }
{}

/// Two values that fit have one spelling only where they are the same.
pub fn spellings_tell_values_apart()
    ensures { (s : Shape) → IsMessage s → Lawful s → (v : Value s) → (w : Value s) → Fits s v → Fits s w → spell s v ≡ spell s w → v ≡ w }
{}

/// The empty value is spelled by no bytes.
pub fn empty_is_spelled_by_nothing()
    ensures { (s : Shape) → length (spell s (empty s)) ≡ 0 }
{}
