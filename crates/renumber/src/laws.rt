//! Laws of walks: what the values that were walked over are with their new indexes.
ghost use Rattle.std.specs.Prelude.{◌≡◌, ℕ, List, ◌*◌, ◌<◌, ◌≤◌, ◌^◌, None, length, map, replicate};
ghost use Rattle.schema.specs.Each.{Each};
ghost use Rattle.schema.specs.Messages.{resource_profiles};
ghost use Rattle.schema.specs.Moved.{moved};
ghost use Rattle.schema.specs.Shape.{Shape, Table, Value};
ghost use Rattle.schema.specs.Spell.{spell};
ghost use Rattle.schema.specs.Texts.{items_text};
ghost use Rattle.meaning.specs.Canonical.{values};
ghost use Rattle.meaning.specs.Memo.{index_in};
ghost use Rattle.meaning.specs.Message.{record_text};
ghost use Rattle.meaning.specs.Renumbering.{BecomeEach, BeginWithZeros, IsDeduplicated};
ghost use Rattle.meaning.specs.Tables.{IsSound};
ghost use Rattle.meaning.specs.Tree.{tree};
ghost use Rattle.dict_rec.specs.declared.dictionary.Dictionary.{Dictionary};
ghost use Rattle.key_tables.specs.Keys.{Keys, at};
ghost use Rattle.renumber.specs.Entries.{IsKey, IsPart, IsSource, new_entries, old_entries};
ghost use Rattle.renumber.specs.Marks.{CanBeWalkedBack, IsWalkMark, WalkGoesOn, walked_back};
ghost use Rattle.renumber.specs.Memos.{IsMemoMark, MemoGoesOn, MemoState, memo_back};
ghost use Rattle.renumber.specs.Walk.{IsReady, MemoLists, Moves, State, WalkedEach};
ghost use Rattle.renumber.specs.declared.walk_mark.WalkMark.{WalkMark};

/// Deduplicated tables are ready for a message of whose entries none was met.
pub fn nothing_met_is_ready()
    ensures { (source : Dictionary) → (keys : Keys) → (memo : MemoLists)
        → IsDeduplicated (new_entries keys) → BeginWithZeros (new_entries keys) → ((T : Table) → Each (IsKey T) (at keys T)) → ((T : Table) → length (at keys T) < 2 ^ 31)
        → length keys ≡ 7 → length memo ≡ 7 → ((T : Table) → at memo T ≡ replicate (length (old_entries source T)) None) → IsReady source keys memo }
{}

/// After a walk over values they become, with the new indexes of the memo, what they mean, while the entries grow by exactly what
/// the walk meets. Their trees are spelled as they are themselves.
pub fn walked_values_are_renumbered()
    ensures renumbered { (s : Shape) → IsSound s → (a : State) → (b : State) → IsSource b.source → IsReady b.source b.keys b.memo → (xs : List (Value s)) → WalkedEach s a b xs
        → BecomeEach (old_entries a.source) s (values (new_entries a.keys)) (values (new_entries b.keys)) xs (map (moved (index_in (at b.memo)) s) xs) }
    ensures spelled { (s : Shape) → (ys : List (Value s)) → map (record_text s) (map (tree s) ys) ≡ map (spell s) ys }
{}

/// With their new indexes resource records are written in at most five times as many bytes.
pub fn walked_records_are_short()
    ensures { (w : State) → IsSource w.source → IsReady w.source w.keys w.memo → (rs : List (Value resource_profiles)) → Each (IsPart resource_profiles w.source) rs → (number : ℕ)
        → length (items_text number (map (spell resource_profiles) (map (moved (index_in (at w.memo)) resource_profiles) rs))) ≤ 5 * length (items_text number (map (spell resource_profiles) rs)) }
{}

/// A memo that goes on from that of a mark can be cut back to it, and is that one again.
pub fn memos_lead_back()
    ensures { (mark : ℕ) → (a : MemoState) → (b : MemoState) → IsMemoMark mark a → MemoGoesOn a b → (mark ≤ length b.noted) × (memo_back mark b ≡ a) }
{}

/// Memos go on from themselves (`same`), and from those that the ones in between go on from (`over`).
pub fn memos_go_on()
    ensures same { (m : MemoState) → MemoGoesOn m m }
    ensures over { (a : MemoState) → (b : MemoState) → (c : MemoState) → MemoGoesOn a b → MemoGoesOn b c → MemoGoesOn a c }
{}

/// A walk that goes on from the state of a mark can be cut back to it, and has this state again. The state need not have been one
/// of this walk: a mark of tables and `MemoMark::none` are a mark of these tables with a memo of nothing.
pub fn walks_lead_back()
    ensures { (m : WalkMark) → (a : State) → (b : State) → IsWalkMark m a → WalkGoesOn a b → CanBeWalkedBack m b × (walked_back m b ≡ a) }
{}

/// Walks go on from themselves (`same`), from those that the ones in between go on from (`over`), and from where they began after
/// each call that walks (`moves`).
pub fn walks_go_on()
    ensures same { (w : State) → WalkGoesOn w w }
    ensures over { (a : State) → (b : State) → (c : State) → WalkGoesOn a b → WalkGoesOn b c → WalkGoesOn a c }
    ensures moves { (s : Shape) → (extra : ℕ) → (a : State) → (b : State) → (n : ℕ) → (m : ℕ) → Moves s extra a b n m → WalkGoesOn a b }
{}
