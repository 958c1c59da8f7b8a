//! What it means that bytes are a message, in the terms of the encoding and of the schema. The law is the contract of a public
//! function with no body; its lemmas are in `proofs/`.
ghost use Rattle.std.specs.Prelude.{◌≡◌, ◌↔◌, ◌<◌, ◌≤◌, ℕ, ℤ, List, All, length, Ok, Err};
ghost use Rattle.schema.specs.Fits.{Fits};
ghost use Rattle.schema.specs.MessageFault.{HasFault};
ghost use Rattle.schema.specs.Messages.{envelope};
ghost use Rattle.pb_wire.specs.View.{fault_view};
ghost use Rattle.pb_wire.specs.declared.fault.WireFault.{WireFault};
ghost use Rattle.otlp_msg.specs.Acceptance.{IsAccepted, IsNotZero, IsDangling};
ghost use Rattle.otlp_msg.specs.Message.{Message, message_of, message_limit};
ghost use Rattle.pb_wire.specs.declared.table_kind.TableKind.{TableKind};
ghost use Rattle.otlp_msg.specs.declared.path.Path.{Path};
ghost use Rattle.otlp_msg.specs.declared.refusal.Refusal.TheVariants.{Size, Wire, ZeroEntry, Dangling, NoMemory};

/// Bytes are a message exactly if they are accepted, and each refusal says exactly what is wrong with them: there are too
/// many, else they have this first fault, else this is their first table that doesn't begin with its zero entry, else this
/// is the first index of the walk that is not in its table. Out of memory is never what is wrong with them. What is accepted is
/// in its ranges, and its AnyValues are not too deep (`ranges`), so it can be written and read again.
pub fn accepts_exactly()
    ensures accepted { (body : List ℕ) → (m : Message) → (message_of body ≡ Ok m) ↔ IsAccepted body m }
    ensures ranges { (body : List ℕ) → (m : Message) → All (λ b. b < 256) body → message_of body ≡ Ok m → Fits envelope m }
    ensures size { (body : List ℕ) → (len : ℕ) → (message_of body ≡ Err (Size len)) ↔ ((message_limit < length body) × (len ≡ length body)) }
    ensures wire { (body : List ℕ) → (f : WireFault) → (message_of body ≡ Err (Wire f)) ↔ ((length body ≤ message_limit) × HasFault envelope 0 body (fault_view f)) }
    ensures zero_entry { (body : List ℕ) → (table : TableKind) → (message_of body ≡ Err (ZeroEntry table)) ↔ IsNotZero body table }
    ensures dangling { (body : List ℕ) → (table : TableKind) → (index : ℤ) → (len : ℕ) → (path : Path) → (message_of body ≡ Err (Dangling table index len path)) ↔ IsDangling body table index len path }
    ensures no_memory { (body : List ℕ) → ¬ (message_of body ≡ Err NoMemory) }
{}
