//! What a Profiles message means when every index is replaced by the value of its entry, and the canonical tables of a
//! meaning. The definitions are in `specs/`, by recursion on a message's shape; each law is the contract of a public function with
//! no body, over all shapes at once.
#![tactic(auto)]

ghost use Rattle.std.specs.Prelude.{◌≡◌, ℕ, ◌<◌, ◌^◌, pos, List, [], ◌∷◌, ◌++◌, length, take, map, Ok, true};
ghost use Rattle.schema.specs.Each.{Each};
ghost use Rattle.schema.specs.Fits.{Fits, Lawful};
ghost use Rattle.schema.specs.Merge.{merge};
ghost use Rattle.schema.specs.Shape.{IsMessage, Shape, Index, Table, Value, empty};
ghost use Rattle.schema.specs.Messages.{profile, resource_profiles};
ghost use Rattle.schema.specs.Texts.{items_text, long_field};
ghost use Rattle.schema.specs.Spell.{spell};
ghost use Rattle.meaning.specs.Tree.{Tree, Integer, tree, value, IsOf};
ghost use Rattle.meaning.specs.Tables.{Tables, IsSound, entry, has, Distinct};
ghost use Rattle.meaning.specs.Meaning.{resolve, uses, blank, zero_value, entry_at, HasZeros, filled, IsMeaning};
ghost use Rattle.meaning.specs.Message.{dictionary, dictionary_value, tables_in, message, meaning_of, tables_for, canonical_value, meaning_text, entry_text, record_text, dictionary_text};
ghost use Rattle.meaning.specs.Ranges.{HasRange};
ghost use Rattle.meaning.specs.Canonical.{zeros, tables_of, visited_tables, renumber, entries, values, records, record_list, IsWithin, Covers};
ghost use Rattle.meaning.specs.Renumbering.{IsDeduplicated, WrittenEach, Drafted};

/// Laws of values with the new indexes of a memo.
pub mod moving;

/// A value is the value of its tree.
pub fn trees_keep_values()
    ensures { (s : Shape) → (v : Value s) → value s (tree s v) ≡ v }
{}

/// The canonical tables of a meaning, with its records renumbered, mean the same.
pub fn canonical_resolves()
    ensures { (s : Shape) → IsSound s → (m : Tree) → let v = tables_of s m in
        resolve (entries v) s (renumber v s m) ≡ m }
{}

/// Meanings whose canonical entries and renumbered records are equal are equal.
pub fn canonical_is_unique()
    ensures { (s : Shape) → IsSound s → (m : Tree) → (n : Tree)
        → ((T : Table) → entries (tables_of s m) T ≡ entries (tables_of s n) T)
        → renumber (tables_of s m) s m ≡ renumber (tables_of s n) s n → m ≡ n }
{}

/// Each index of the renumbered records and of each renumbered entry is in its table.
pub fn indexes_in_tables()
    ensures records { (s : Shape) → (m : Tree) → let v = tables_of s m in IsWithin (entries v) s (renumber v s m) }
    ensures entries { (s : Shape) → IsSound s → (m : Tree) → (T : Table) → let v = tables_of s m in
        Each (IsWithin (entries v) (entry T)) (entries v T) }
{}

/// A table of a meaning has the zero value and each value that the walk meets, once and no other, and its entries differ.
pub fn tables_hold_each_value_once()
    ensures all { (s : Shape) → (m : Tree) → Covers (tables_of s m) s m }
    ensures only { (s : Shape) → (m : Tree) → (T : Table) → Each (λ x. has (zeros T ++ uses T s m) x ≡ true) (tables_of s m T) }
    ensures once { (s : Shape) → (m : Tree) → (T : Table) → Distinct (tables_of s m T) }
    ensures entries { (s : Shape) → IsSound s → (m : Tree) → (T : Table) → Distinct (entries (tables_of s m) T) }
{}

/// Visiting each entry after those that it names gives the same tables.
pub fn orders_agree()
    ensures { (s : Shape) → IsSound s → (m : Tree) → (T : Table) → visited_tables s m T ≡ tables_of s m T }
{}

/// Each table of a meaning begins with the zero value (`value`), its entry is the empty one (`entry`), and its index is 0
/// (`index`).
pub fn zero_comes_first()
    ensures value { (s : Shape) → (m : Tree) → (T : Table) → (rest : List Tree) × (tables_of s m T ≡ zero_value (entry T) ∷ rest) }
    ensures entry { (s : Shape) → (m : Tree) → (T : Table) → (rest : List Tree) × (entries (tables_of s m) T ≡ blank (entry T) ∷ rest) }
    ensures index { (s : Shape) → (m : Tree) → (k : Shape) → IsSound k → renumber (tables_of s m) k (zero_value k) ≡ blank k }
{}

/// Where entries 0 are the zero entries, the empty value means the zero value, and so does an index to an empty entry,
/// wherever that is. An index to an entry that means the zero value becomes 0.
pub fn zero_entries_mean_zero()
    ensures empty { (d : Tables) → HasZeros d → (s : Shape) → IsSound s → resolve d s (blank s) ≡ zero_value s }
    ensures index { (d : Tables) → HasZeros d → (T : Table) → (i : ℕ) → entry_at (d T) (entry T) (Integer (pos i)) ≡ blank (entry T)
        → resolve d (Index T (entry T)) (Integer (pos i)) ≡ resolve d (Index T (entry T)) (Integer (pos 0)) }
    ensures renumbered { (s : Shape) → (m : Tree) → (d : Tables) → (T : Table) → (i : ℕ)
        → resolve d (entry T) (entry_at (d T) (entry T) (Integer (pos i))) ≡ zero_value (entry T)
        → renumber (tables_of s m) (Index T (entry T)) (resolve d (Index T (entry T)) (Integer (pos i))) ≡ Integer (pos 0) }
{}

/// An empty table and a table of its zero entry alone mean the same.
pub fn empty_tables_hold_zero()
    ensures { (d : Tables) → (s : Shape) → IsSound s → (t : Tree) → resolve (filled d) s t ≡ resolve d s t }
{}

/// Entries after those of a dictionary that no index of it names change no meaning.
pub fn unused_entries_mean_nothing()
    ensures { (d : Tables) → ((T : Table) → Each (IsWithin d (entry T)) (d T)) → (more : Tables) → (s : Shape) → IsSound s → (t : Tree) → IsWithin d s t
        → resolve (λ T. filled d T ++ more T) s t ≡ resolve d s t }
{}

/// A draft begins with zero entries alone and gains what is written after its records. Its tables are as before when they
/// are cut to their old lengths.
pub fn drafts_grow_and_are_cut_back()
    ensures begin { (k : Shape) → (d : Tables) → ((T : Table) → d T ≡ blank (entry T) ∷ []) → Drafted k d [] [] }
    ensures join { (k : Shape) → (d : Tables) → (e : Tables) → (ms : List Tree) → (ns : List Tree) → (xs : List Tree) → (ys : List Tree)
        → Drafted k d ms xs → IsDeduplicated e → WrittenEach k (values d) (values e) ns ys → Drafted k e (ms ++ ns) (xs ++ ys) }
    ensures cut { (k : Shape) → (d : Tables) → (e : Tables) → (ns : List Tree) → (ys : List Tree)
        → IsDeduplicated d → IsDeduplicated e → WrittenEach k (values d) (values e) ns ys → (T : Table) → take (length (d T)) (e T) ≡ d T }
{}

/// The entries and records of a draft are the canonical ones of its meanings, and so are its bytes: the records, each after
/// its tag and length, and then the dictionary.
pub fn drafts_are_canonical()
    ensures entries { (k : Shape) → (d : Tables) → (ms : List Tree) → (xs : List Tree) → Drafted k d ms xs → (T : Table)
        → d T ≡ entries (tables_of (records k) (record_list ms)) T }
    ensures records { (k : Shape) → (d : Tables) → (ms : List Tree) → (xs : List Tree) → Drafted k d ms xs
        → record_list xs ≡ renumber (tables_of (records k) (record_list ms)) (records k) (record_list ms) }
    ensures bytes { (k : Shape) → IsMessage k → (d : Tables) → (ms : List Tree) → (xs : List Tree) → Drafted k d ms xs
        → meaning_text k ms ≡ items_text 1 (map (record_text k) xs) ++ long_field 2 (dictionary_text d) }
{}

/// Two meanings that the lists cover and that are renumbered alike are the same.
pub fn entries_tell_values_apart()
    ensures { (v : Tables) → (s : Shape) → IsSound s → (m : Tree) → (n : Tree) → Covers v s m → Covers v s n
        → renumber v s m ≡ renumber v s n → m ≡ n }
{}

/// The canonical message of a meaning means it, and whatever a message means is such a meaning.
pub fn canonical_message_means_the_same()
    ensures same { (k : Shape) → IsSound k → (ms : List Tree) → Each (IsMeaning k) ms → meaning_of k (canonical_value k ms) ≡ ms }
    ensures all { (k : Shape) → IsSound k → (x : Value (message k)) → Each (IsMeaning k) (meaning_of k x) }
{}

/// The canonical message has the canonical entries and the renumbered records. So entry 0 of each table is the zero entry,
/// and each index, of an entry or of a record, is in its table.
pub fn canonical_message_is_in_order()
    ensures tables { (k : Shape) → IsSound k → (ms : List Tree) → Each (IsMeaning k) ms
        → (T : Table) → tables_in (canonical_value k ms).1.0 T ≡ entries (tables_for k ms) T }
    ensures renumbered { (k : Shape) → (ms : List Tree) → Each (IsMeaning k) ms
        → map (tree k) (canonical_value k ms).0 ≡ map (renumber (tables_for k ms) k) ms }
    ensures zeros { (k : Shape) → IsSound k → (ms : List Tree) → Each (IsMeaning k) ms
        → (T : Table) → (rest : List Tree) × (tables_in (canonical_value k ms).1.0 T ≡ blank (entry T) ∷ rest) }
    ensures entries { (k : Shape) → IsSound k → (ms : List Tree) → Each (IsMeaning k) ms
        → (T : Table) → let d = tables_in (canonical_value k ms).1.0 in Each (IsWithin d (entry T)) (d T) }
    ensures records { (k : Shape) → IsSound k → (ms : List Tree) → Each (IsMeaning k) ms
        → let x = canonical_value k ms in Each (IsWithin (tables_in x.1.0) k) (map (tree k) x.0) }
{}

/// The canonical message of meanings can be written, if their leaves are in their ranges and the canonical bytes are not too
/// many (`meanings`). So it is with what a message means that can be written (`ranges`, `messages`).
pub fn canonical_messages_fit()
    ensures meanings { (k : Shape) → IsMessage k → IsSound k → Lawful k → (ms : List Tree) → Each (HasRange k) ms
        → length (meaning_text k ms) < 2 ^ 31 → Fits (message k) (canonical_value k ms) }
    ensures ranges { (k : Shape) → IsSound k → (x : Value (message k)) → Fits (message k) x → Each (HasRange k) (meaning_of k x) }
    ensures messages { (k : Shape) → IsMessage k → IsSound k → Lawful k → (x : Value (message k)) → Fits (message k) x
        → length (meaning_text k (meaning_of k x)) < 2 ^ 31 → Fits (message k) (canonical_value k (meaning_of k x)) }
{}

/// The canonical bytes of a meaning are read as its canonical message, wherever they begin, if that message can be written.
pub fn canonical_bytes_are_read()
    ensures { (k : Shape) → Lawful k → (ms : List Tree) → Fits (message k) (canonical_value k ms) → (base : ℕ)
        → merge (message k) (empty (message k)) base (meaning_text k ms) ≡ Ok (canonical_value k ms) }
{}

/// A message that is rebuilt from its meaning is read as one that means the same, and that would be rebuilt as it is. This
/// holds where the canonical message can be written (`read`), and so where the message can (`whole`).
pub fn rebuilding_keeps_the_meaning()
    ensures read { (k : Shape) → IsSound k → Lawful k → (x : Value (message k)) → Fits (message k) (canonical_value k (meaning_of k x)) → (base : ℕ)
        → (y : Value (message k)) × (merge (message k) (empty (message k)) base (meaning_text k (meaning_of k x)) ≡ Ok y) × (meaning_of k y ≡ meaning_of k x) }
    ensures whole { (k : Shape) → IsMessage k → IsSound k → Lawful k → (x : Value (message k)) → Fits (message k) x
        → length (meaning_text k (meaning_of k x)) < 2 ^ 31 → (base : ℕ)
        → (y : Value (message k)) × (merge (message k) (empty (message k)) base (meaning_text k (meaning_of k x)) ≡ Ok y) × (meaning_of k y ≡ meaning_of k x) }
    ensures again { (k : Shape) → IsSound k → (ms : List Tree) → Each (IsMeaning k) ms
        → meaning_text k (meaning_of k (canonical_value k ms)) ≡ meaning_text k ms }
{}

/// Meanings that can be written have the same canonical bytes only where they are the same, and so messages that can be
/// written only where they mean the same.
pub fn canonical_bytes_are_unique()
    ensures meanings { (k : Shape) → IsSound k → Lawful k → (ms : List Tree) → (ns : List Tree) → Each (IsMeaning k) ms → Each (IsMeaning k) ns
        → Fits (message k) (canonical_value k ms) → Fits (message k) (canonical_value k ns)
        → meaning_text k ms ≡ meaning_text k ns → ms ≡ ns }
    ensures messages { (k : Shape) → IsMessage k → IsSound k → Lawful k → (x : Value (message k)) → (y : Value (message k))
        → Fits (message k) x → Fits (message k) y → length (meaning_text k (meaning_of k x)) < 2 ^ 31
        → meaning_text k (meaning_of k x) ≡ meaning_text k (meaning_of k y) → meaning_of k x ≡ meaning_of k y }
{}

/// The canonical bytes are the records, each after its tag and length, and then the dictionary, which is always written:
/// each table has its zero entry (`canonical_message_is_in_order`).
pub fn canonical_bytes_have_their_parts()
    ensures whole { (k : Shape) → IsMessage k → (ms : List Tree) → let v = tables_for k ms in
        meaning_text k ms ≡ items_text 1 (map (λ m. record_text k (renumber v k m)) ms) ++ long_field 2 (dictionary_text (entries v)) }
    ensures dictionary { (d : Tables) → spell dictionary (dictionary_value d) ≡ dictionary_text d }
{}

/// Entries that can be written have the same bytes only where they are the same.
pub fn entry_bytes_tell_entries_apart()
    ensures { (T : Table) → (e : Tree) → (f : Tree) → IsOf (entry T) e → IsOf (entry T) f
        → Fits (entry T) (value (entry T) e) → Fits (entry T) (value (entry T) f) → entry_text T e ≡ entry_text T f → e ≡ f }
{}

/// In the schema, each index has the shape of its table's entries.
pub fn schema_is_sound()
    ensures entries { (T : Table) → IsSound (entry T) }
    ensures profile { IsSound profile }
    ensures records { IsSound resource_profiles }
{}
