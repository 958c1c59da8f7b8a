//! Laws of canonical bytes, of messages as one, and of parts.
ghost use Rattle.std.specs.Prelude.{◌≡◌, ◌<◌, ◌≤◌, ℕ, List, [], ◌∷◌, length, map, All, Ok, Err};
ghost use Rattle.std.specs.List.{flat_map};
ghost use Rattle.schema.specs.Each.{Each};
ghost use Rattle.schema.specs.Fits.{Fits};
ghost use Rattle.schema.specs.Messages.{envelope};
ghost use Rattle.otlp_msg.specs.Message.{Message, message_limit, message_of};
ghost use Rattle.operations.specs.Flat.{flat, bare};
ghost use Rattle.operations.specs.Seams.{join};
ghost use Rattle.draft_contents.specs.declared.fault.BuildFault.TheVariants.{OutputLimit};
ghost use Rattle.draft_contents.specs.Meanings.{size_of};
ghost use Rattle.split_merge.specs.Canonical.{Meaning, meaning, canonical_bytes, canon_of, CanBeWritten, IsAcceptedAs, IsOnlyOf};
ghost use Rattle.split_merge.specs.Merged.{IsFirstExcess, joined_meaning, merged};
ghost use Rattle.split_merge.specs.Splits.{FitsOrIsOne, GivesParts, split_parts, splitting_of};

/// The canonical bytes of a meaning that can be written are accepted with this meaning (`meanings`). So are those of a message
/// that can be written, as each accepted message can, where they are not too many (`messages`), and they are their own
/// canonical bytes (`again`).
pub fn canonical_bytes_are_accepted()
    ensures meanings { (ms : Meaning) → CanBeWritten ms → IsAcceptedAs (canonical_bytes ms) ms }
    ensures messages { (m : Message) → (b : List ℕ) → Fits envelope m → canon_of m ≡ Ok b → IsAcceptedAs b (meaning m) }
    ensures again { (m : Message) → (b : List ℕ) → Fits envelope m → canon_of m ≡ Ok b → (n : Message) → message_of b ≡ Ok n → canon_of n ≡ Ok b }
{}

/// Two meanings that can be written have the same canonical bytes only where they are the same (`meanings`). Two messages that
/// can be written have them only where they mean the same (`apart`), so two bodies that are accepted (`bodies`), and where they do
/// (`same`).
pub fn canonical_bytes_are_unique()
    ensures meanings { (ms : Meaning) → CanBeWritten ms → IsOnlyOf (canonical_bytes ms) ms }
    ensures apart { (m : Message) → (n : Message) → (b : List ℕ) → Fits envelope m → Fits envelope n → canon_of m ≡ Ok b → canon_of n ≡ Ok b → meaning m ≡ meaning n }
    ensures bodies { (a : List ℕ) → (b : List ℕ) → (m : Message) → (n : Message) → (bytes : List ℕ) → All (λ x. x < 256) a → All (λ x. x < 256) b
        → message_of a ≡ Ok m → message_of b ≡ Ok n → canon_of m ≡ Ok bytes → canon_of n ≡ Ok bytes → meaning m ≡ meaning n }
    ensures same { (m : Message) → (n : Message) → meaning m ≡ meaning n → canon_of m ≡ canon_of n }
{}

/// What messages mean as one is their meanings, joined (`joined`). Their bytes as one are the canonical ones of that, and no more than
/// a message may have (`ok`). Otherwise some prefix of the messages has too many, and the size of the shortest is told (`limit`).
/// If all as one have no more bytes than a message may have, these are made (`fits`). A single message has its canonical bytes
/// (`one`).
pub fn merged_messages_are_joined()
    ensures joined { (messages : List Message) → joined_meaning messages ≡ join (map meaning messages) }
    ensures ok { (messages : List Message) → (b : List ℕ) → merged messages ≡ Ok b → (b ≡ canonical_bytes (joined_meaning messages)) × (length b ≤ message_limit) }
    ensures limit { (messages : List Message) → (n : ℕ) → merged messages ≡ Err (OutputLimit n) → IsFirstExcess [] messages n }
    ensures fits { (messages : List Message) → size_of (joined_meaning messages) ≤ message_limit → merged messages ≡ Ok (canonical_bytes (joined_meaning messages)) }
    ensures one { (m : Message) → merged (m ∷ []) ≡ canon_of m }
{}

/// The profiles of messages as one are those of each, in order, with the heads of their records.
pub fn merged_messages_keep_their_profiles()
    ensures { (messages : List Message) → map bare (flat (joined_meaning messages ∷ [])) ≡ flat_map (λ m. map bare (flat (meaning m ∷ []))) messages }
{}

/// The profiles of the parts that messages are cut into are those of each message, in order, with the heads of their records.
pub fn split_messages_keep_their_profiles()
    ensures { (limit : ℕ) → (messages : List Message) → map bare (flat (split_parts limit messages)) ≡ flat_map (λ m. map bare (flat (meaning m ∷ []))) messages }
{}

/// Each part has at most `limit` bytes, or is one profile.
pub fn split_parts_fit()
    ensures { (limit : ℕ) → (messages : List Message) → Each (FitsOrIsOne limit) (split_parts limit messages) }
{}

/// What is given one by one, the next part and then those of what is left after it, is the parts of the messages (`parts`) and nothing
/// else (`only`).
pub fn parts_are_given_one_by_one()
    ensures parts { (limit : ℕ) → (messages : List Message) → GivesParts (splitting_of limit messages) (split_parts limit messages) }
    ensures only { (limit : ℕ) → (messages : List Message) → (given : List Meaning) → GivesParts (splitting_of limit messages) given → given ≡ split_parts limit messages }
{}
