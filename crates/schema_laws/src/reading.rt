ghost use Rattle.std.specs.Prelude.{◌≡◌, ℕ, List, Ok, Err, ◌↔◌};
ghost use Rattle.schema.specs.Fault.{Fault};
ghost use Rattle.schema.specs.Field.{Field};
ghost use Rattle.schema.specs.MessageFault.{HasFault, HasFaultInParts};
ghost use Rattle.schema.specs.Parts.{Part, SpellsEach, joined};
ghost use Rattle.schema.specs.Merge.{merge, merge_all};
ghost use Rattle.schema.specs.Shape.{Shape, Value};
ghost use Rattle.schema.specs.Spelling.{Spells};
ghost use Rattle.schema.specs.Value.{IsRead, IsReadInParts};

/// Reading fails exactly with the first fault of the bytes, whatever was read before.
pub fn faults_are_found()
    ensures { (s : Shape) → (u : Value s) → (base : ℕ) → (bytes : List ℕ) → (g : Fault) → (merge s u base bytes ≡ Err g) ↔ HasFault s base bytes g }
{}

/// Reading gives exactly the message value of the bytes, over what was read before.
pub fn reads_the_value()
    ensures { (s : Shape) → (u : Value s) → (v : Value s) → (base : ℕ) → (bytes : List ℕ) → (merge s u base bytes ≡ Ok v) ↔ IsRead s u bytes v }
{}

/// Reading gives a value exactly where the bytes have no fault.
pub fn reads_without_fault()
    ensures { (s : Shape) → (u : Value s) → (base : ℕ) → (bytes : List ℕ) → ((v : Value s) × (merge s u base bytes ≡ Ok v)) ↔ ((g : Fault) → HasFault s base bytes g → ⊥) }
{}

/// The parts of a singular message are read as its joined bytes are, except that each spells fields by itself.
pub fn reads_parts()
    ensures value { (s : Shape) → (u : Value s) → (v : Value s) → (parts : List Part) → (merge_all s u parts ≡ Ok v) ↔ IsReadInParts s u parts v }
    ensures fault { (s : Shape) → (u : Value s) → (parts : List Part) → (g : Fault) → (merge_all s u parts ≡ Err g) ↔ HasFaultInParts s parts g }
    ensures joined { (parts : List Part) → (fs : List Field) → SpellsEach parts fs → Spells (joined parts) fs }
{}
