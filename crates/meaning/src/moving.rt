ghost use Rattle.std.specs.Prelude.{◌≡◌, ◌<◌, ◌^◌, length};
ghost use Rattle.schema.specs.Moved.{GivesIndexes, moved};
ghost use Rattle.schema.specs.Shape.{Shape, Table, Value};
ghost use Rattle.meaning.specs.Canonical.{renumber, values};
ghost use Rattle.meaning.specs.Meaning.{HasZeros, resolve};
ghost use Rattle.meaning.specs.Memo.{Keeps, Knows, Met, index_in};
ghost use Rattle.meaning.specs.Renumbering.{Memo, Ready, Written};
ghost use Rattle.meaning.specs.Tables.{IsSound, Tables};
ghost use Rattle.meaning.specs.Tree.{tree};

/// With the new indexes of a memo that knows each index, a value is what it means, renumbered.
pub fn moved_is_renumbered()
    ensures { (s : Shape) → IsSound s → (d : Tables) → (k : Tables) → (memo : Memo) → Ready d k memo → HasZeros d
        → (v : Value s) → Knows memo s v → tree s (moved (index_in memo) s v) ≡ renumber (values k) s (resolve d s (tree s v)) }
{}

/// What a memo knows stays known while it keeps what it holds.
pub fn known_stays_known()
    ensures { (memo : Memo) → (memo' : Memo) → Keeps memo memo' → (s : Shape) → (v : Value s) → Knows memo s v → Knows memo' s v }
{}

/// A value that was met is written with the indexes of the memo.
pub fn met_is_written()
    ensures { (s : Shape) → IsSound s → (d : Tables) → (k : Tables) → (k' : Tables) → (memo' : Memo) → Ready d k' memo' → HasZeros d
        → (x : Value s) → Met d s k k' memo' x
        → Written s (values k) (values k') (resolve d s (tree s x)) (tree s (moved (index_in memo') s x)) }
{}

/// The indexes of a memo have 31 bits where the tables have fewer than 2^31 entries.
pub fn memo_gives_indexes()
    ensures { (d : Tables) → (k : Tables) → (memo : Memo) → Ready d k memo → HasZeros d → ((T : Table) → length (k T) < 2 ^ 31)
        → GivesIndexes (index_in memo) }
{}
