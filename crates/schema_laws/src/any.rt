ghost use Rattle.std.specs.Prelude.{◌≡◌, ℕ, ◌+◌, ◌*◌, ◌<◌, ◌≤◌, ◌^◌, suc, List, length, Ok, Err, ◌↔◌};
ghost use Rattle.schema.specs.AnyFaults.{AnyFault, MemberFault};
ghost use Rattle.schema.specs.AnyMerge.{merge_any, merge_any_all};
ghost use Rattle.schema.specs.AnyRead.{IsReadAny, IsReadAnyInParts};
ghost use Rattle.schema.specs.AnySpell.{FitsAny, any_length, any_text};
ghost use Rattle.schema.specs.AnyValue.{AnyValue};
ghost use Rattle.schema.specs.Fault.{Fault};
ghost use Rattle.schema.specs.Parts.{FaultInParts, Part, joined};
ghost use Rattle.schema.specs.Each.{Each};

/// Reading an AnyValue fails exactly with the first fault of its payload, with any number of levels left and whatever was
/// read before.
pub fn any_faults_are_found()
    ensures { (left : ℕ) → (at : ℕ) → (end : ℕ) → (bytes : List ℕ) → (u : AnyValue) → (g : Fault) → (merge_any left at end bytes u ≡ Err g) ↔ AnyFault left at end bytes g }
{}

/// Reading an AnyValue gives exactly the value of the last run of its members, over what was read before, with so many levels
/// left for the values inside.
pub fn any_reads_the_value()
    ensures { (left : ℕ) → (at : ℕ) → (end : ℕ) → (bytes : List ℕ) → (u : AnyValue) → (v : AnyValue) → (merge_any (suc left) at end bytes u ≡ Ok v) ↔ IsReadAny left u bytes v }
{}

/// Reading an AnyValue gives a value exactly where its payload has no fault.
pub fn any_reads_without_fault()
    ensures { (left : ℕ) → (at : ℕ) → (end : ℕ) → (bytes : List ℕ) → (u : AnyValue)
        → ((v : AnyValue) × (merge_any left at end bytes u ≡ Ok v)) ↔ ((g : Fault) → AnyFault left at end bytes g → ⊥) }
{}

/// The payloads of one AnyValue are read as their joined bytes are, except that each spells fields by itself.
pub fn any_reads_parts()
    ensures value { (left : ℕ) → (u : AnyValue) → (v : AnyValue) → (parts : List Part) → (merge_any_all left u parts ≡ Ok v) ↔ IsReadAnyInParts left u parts v }
    ensures fault { (left : ℕ) → (u : AnyValue) → (parts : List Part) → (g : Fault) → (merge_any_all left u parts ≡ Err g) ↔ FaultInParts (MemberFault (AnyFault left)) parts g }
{}

/// The lengths of the parts add up to that of the spelling.
pub fn any_spelling_has_its_length()
    ensures { (v : AnyValue) → any_length v ≡ length (any_text v) }
{}

/// The spelling of an AnyValue that fits is read as that value, wherever it lies.
pub fn any_reads_back()
    ensures { (left : ℕ) → (v : AnyValue) → FitsAny left v → (at : ℕ) → (end : ℕ) → merge_any left at end (any_text v) AnyValue.Empty ≡ Ok v }
{}

/// An AnyValue that is read fits as many levels as were left, in one payload or in several, if sixteen times the bytes can be
/// counted, and its spelling is at most sixteen times as long as they are. So it is read again of its spelling.
pub fn any_read_values_fit()
    ensures fits { (left : ℕ) → (at : ℕ) → (end : ℕ) → (bytes : List ℕ) → (v : AnyValue)
        → Each (λ b. b < 256) bytes → 16 * length bytes < 2 ^ 64 → merge_any left at end bytes AnyValue.Empty ≡ Ok v → FitsAny left v }
    ensures short { (left : ℕ) → (at : ℕ) → (end : ℕ) → (bytes : List ℕ) → (v : AnyValue)
        → Each (λ b. b < 256) bytes → 16 * length bytes < 2 ^ 64 → merge_any left at end bytes AnyValue.Empty ≡ Ok v → length (any_text v) ≤ 16 * length bytes }
    ensures again { (left : ℕ) → (at : ℕ) → (end : ℕ) → (bytes : List ℕ) → (v : AnyValue)
        → Each (λ b. b < 256) bytes → 16 * length bytes < 2 ^ 64 → merge_any left at end bytes AnyValue.Empty ≡ Ok v
        → (c : ℕ) → (d : ℕ) → merge_any left c d (any_text v) AnyValue.Empty ≡ Ok v }
    ensures parts { (left : ℕ) → (parts : List Part) → (v : AnyValue)
        → Each (λ b. b < 256) (joined parts) → 16 * length (joined parts) < 2 ^ 64 → merge_any_all left AnyValue.Empty parts ≡ Ok v → FitsAny (suc left) v }
    ensures parts_short { (left : ℕ) → (parts : List Part) → (v : AnyValue)
        → Each (λ b. b < 256) (joined parts) → 16 * length (joined parts) < 2 ^ 64 → merge_any_all left AnyValue.Empty parts ≡ Ok v → length (any_text v) ≤ 16 * length (joined parts) }
{}

/// Two AnyValues that fit have one spelling only where they are the same.
pub fn any_spellings_tell_values_apart()
    ensures { (left : ℕ) → (v : AnyValue) → (w : AnyValue) → FitsAny left v → FitsAny left w → any_text v ≡ any_text w → v ≡ w }
{}
