//! What is done with meanings: they are joined, taken apart into a flat list of profiles, grouped again, and cut into parts of
//! at most a given size. The definitions are in `specs/`; each law stands on a public function with no body.
#![tactic(auto)]

ghost use Rattle.std.specs.Prelude.{◌≡◌, ◌≤◌, ◌<◌, ◌⊎◌, ◌↔◌, ℕ, suc, List, [], ◌∷◌, ◌++◌, length, map, take, drop, true, cond};
ghost use Rattle.std.specs.List.{flat_map};
ghost use Rattle.schema.specs.Each.{Each};
ghost use Rattle.schema.specs.Fits.{Fits};
ghost use Rattle.schema.specs.Messages.{resource_profiles, resource, scope, profile};
ghost use Rattle.schema.specs.Shape.{Shape, Value};
ghost use Rattle.meaning.specs.Tree.{Tree, IsOf, value};
ghost use Rattle.meaning.specs.Tables.{Tables};
ghost use Rattle.meaning.specs.Canonical.{renumber, values};
ghost use Rattle.meaning.specs.Meaning.{IsMeaning};
ghost use Rattle.meaning.specs.Message.{message, meaning_of, meaning_text};
ghost use Rattle.meaning.specs.Ranges.{HasRange};
ghost use Rattle.meaning.specs.Renumbering.{IsDeduplicated, WrittenEach, Drafted};
ghost use Rattle.parts.specs.LastHeads.{last_heads, repeated_parts, repeated_head};
ghost use Rattle.parts.specs.Records.{holder, record_parts, held, front, back};
ghost use Rattle.operations.specs.Outlines.{Item, head, holding, outline, item_part};
ghost use Rattle.operations.specs.Seams.{seam, join, under_last, repeated_heads, repeated_resource, same_head, joined_scope, joined_resource, joined_under};
ghost use Rattle.operations.specs.Flat.{FlatProfile, flat, bare, later, HasHeadsOf, group, record_of, without_empty};
ghost use Rattle.operations.specs.Cuts.{size_of, first_length, cut, flat_parts, parts};
ghost use Rattle.operations.specs.Heads.{HeadFits, HeadsFit};

/// The parts of a meaning's records with new indexes are those of its outline, item by item.
pub fn outlines_give_parts()
    ensures { (v : Tables) → (ms : List Tree)
        → record_parts (map (renumber v resource_profiles) ms) ≡ map (item_part resource scope profile v) (outline ms) }
{}

/// If a meaning's outline goes on from another's, its canonical bytes are at least as many.
pub fn continued_outlines_are_no_shorter()
    ensures { (ms : List Tree) → (ns : List Tree) → (more : List Item) → outline ns ≡ outline ms ++ more
        → length (meaning_text resource_profiles ms) ≤ length (meaning_text resource_profiles ns) }
{}

/// If either meaning is empty, the seam is the other (`first`, `last`). Otherwise only the two records that meet change: where
/// their heads are equal they become one (`between`). Joining no meanings gives the empty meaning (`none`), a single one is as it
/// was (`single`), and one more is joined to those before it (`more`).
pub fn seams_join_neighbours()
    ensures first { (b : List Tree) → seam [] b ≡ b }
    ensures last { (a : List Tree) → seam a [] ≡ a }
    ensures between { (a : List Tree) → (r : Tree) → (s : Tree) → (b : List Tree)
        → seam (a ++ r ∷ []) (s ∷ b) ≡ cond (same_head r s) (a ++ joined_resource r s ∷ b) (a ++ r ∷ s ∷ b) }
    ensures none { let nothing : List Tree = [] in (join [] ≡ nothing) }
    ensures single { (m : List Tree) → join (m ∷ []) ≡ m }
    ensures more { (ms : List (List Tree)) → (m : List Tree) → join (ms ++ m ∷ []) ≡ seam (join ms) m }
{}

/// Two resource records that become one have the head of the first and the scope records of both (`first`, `last`). Where both have
/// some, only the two that meet change: where their heads are equal they become one (`between`), with the profiles of both
/// (`profiles`).
pub fn joined_records_hold_both()
    ensures resource_head { (r : Tree) → (s : Tree) → head (joined_resource r s) ≡ head r }
    ensures first { (r : Tree) → (s : Tree) → held r ≡ [] → held (joined_resource r s) ≡ held s }
    ensures last { (r : Tree) → (s : Tree) → held s ≡ [] → held (joined_resource r s) ≡ held r }
    ensures between { (r : Tree) → (s : Tree) → (a : List Tree) → (q : Tree) → (t : Tree) → (b : List Tree)
        → held r ≡ a ++ q ∷ [] → held s ≡ t ∷ b → held (joined_resource r s) ≡ cond (same_head q t) (a ++ joined_scope q t ∷ b) (a ++ q ∷ t ∷ b) }
    ensures scope_head { (q : Tree) → (t : Tree) → head (joined_scope q t) ≡ head q }
    ensures profiles { (q : Tree) → (t : Tree) → held (joined_scope q t) ≡ held q ++ held t }
{}

/// The outline of a seam is that of the one meaning, and then that of the other without the heads that it repeats.
pub fn seams_go_on()
    ensures { (a : List Tree) → (b : List Tree) → outline (seam a b) ≡ outline a ++ drop (repeated_heads a b) (outline b) }
{}

/// If either meaning is empty, the other comes of both (`first`, `last`). Otherwise only the two resource records that meet change:
/// where their heads are equal they become one (`between`), with the head of the first (`resource_head`) and the scope records of
/// both, each as it was (`scopes`).
pub fn scopes_come_under_the_last_resource()
    ensures first { (b : List Tree) → under_last [] b ≡ b }
    ensures last { (a : List Tree) → under_last a [] ≡ a }
    ensures between { (a : List Tree) → (r : Tree) → (s : Tree) → (b : List Tree)
        → under_last (a ++ r ∷ []) (s ∷ b) ≡ cond (same_head r s) (a ++ joined_under r s ∷ b) (a ++ r ∷ s ∷ b) }
    ensures resource_head { (r : Tree) → (s : Tree) → head (joined_under r s) ≡ head r }
    ensures scopes { (r : Tree) → (s : Tree) → held (joined_under r s) ≡ held r ++ held s }
{}

/// The outline is that of the one meaning, and then that of the other without the head of its first resource record, if that repeats
/// the last one.
pub fn under_last_goes_on()
    ensures { (a : List Tree) → (b : List Tree) → outline (under_last a b) ≡ outline a ++ drop (repeated_resource a b) (outline b) }
{}

/// The profiles of joined meanings are those of each, in order, with their heads.
pub fn joined_meanings_have_the_same_profiles()
    ensures { (ms : List (List Tree)) → map bare (flat (join ms ∷ [])) ≡ flat_map (λ m. map bare (flat (m ∷ []))) ms }
{}

/// The profiles are those of both, in order, with their heads.
pub fn under_last_has_the_same_profiles()
    ensures { (a : List Tree) → (b : List Tree) → map bare (flat (under_last a b ∷ [])) ≡ map bare (flat (a ∷ [])) ++ map bare (flat (b ∷ [])) }
{}

/// Grouping the flat list of meanings gives back their records, without those that hold no profile (`records`). A record with its
/// own head that holds what it held is that record (`whole`), so what is left is as it was. One profile alone makes its own record
/// (`single`).
pub fn grouping_gives_back_records()
    ensures records { (ms : List (List Tree)) → group (flat ms) ≡ without_empty (flat_map (λ m. m) ms) }
    ensures whole { (h : Shape) → (k : Shape) → (t : Tree) → IsOf (holder h k) t → holding t (held t) ≡ t }
    ensures single { (e : FlatProfile) → group (e ∷ []) ≡ record_of e ∷ [] }
{}

/// The flat list of several meanings begins with that of the first; what follows is that of the others, with the place of each
/// resource record raised by the number of those of the first (`first`). So it is with some meanings and others after them (`append`).
pub fn flat_lists_are_appended()
    ensures first { (m : List Tree) → (ms : List (List Tree)) → flat (m ∷ ms) ≡ flat (m ∷ []) ++ map (later (length m)) (flat ms) }
    ensures append { (ms : List (List Tree)) → (ns : List (List Tree)) → flat (ms ++ ns) ≡ flat ms ++ map (later (length (flat_map (λ m. m) ms))) (flat ns) }
{}

/// The profiles of meanings have the heads of the records at their places (`placed`). So profiles with equal places have equal heads
/// (`resources`, `scopes`), and these hold nothing (`heads`).
pub fn places_tell_heads()
    ensures placed { (ms : List (List Tree)) → Each (HasHeadsOf (flat_map (λ m. m) ms)) (flat ms) }
    ensures resources { (rs : List Tree) → (e : FlatProfile) → (f : FlatProfile) → HasHeadsOf rs e → HasHeadsOf rs f
        → e.resource_place ≡ f.resource_place → e.resource ≡ f.resource }
    ensures scopes { (rs : List Tree) → (e : FlatProfile) → (f : FlatProfile) → HasHeadsOf rs e → HasHeadsOf rs f
        → e.resource_place ≡ f.resource_place → e.scope_place ≡ f.scope_place → e.scope ≡ f.scope }
    ensures heads { (rs : List Tree) → (e : FlatProfile) → HasHeadsOf rs e → (head e.resource ≡ e.resource) × (head e.scope ≡ e.scope) }
{}

/// One profile more at the end of a flat list: after a profile of another resource record it makes a resource record of its own
/// (`elsewhere`), after one of another scope record of its resource record a scope record under the last resource record (`scope`),
/// and after one of its own scope record it goes into that one (`profile`). For the last two the profiles must have the heads of the
/// records at their places, as those of meanings have (`places_tell_heads`).
pub fn grouping_goes_on()
    ensures elsewhere { (l : List FlatProfile) → (e : FlatProfile) → (f : FlatProfile) → (e.resource_place ≡ f.resource_place → ⊥)
        → group (l ++ e ∷ f ∷ []) ≡ group (l ++ e ∷ []) ++ record_of f ∷ [] }
    ensures scope { (rs : List Tree) → (l : List FlatProfile) → (e : FlatProfile) → (f : FlatProfile) → Each (HasHeadsOf rs) (l ++ e ∷ f ∷ [])
        → e.resource_place ≡ f.resource_place → (e.scope_place ≡ f.scope_place → ⊥)
        → group (l ++ e ∷ f ∷ []) ≡ under_last (group (l ++ e ∷ [])) (record_of f ∷ []) }
    ensures profile { (rs : List Tree) → (l : List FlatProfile) → (e : FlatProfile) → (f : FlatProfile) → Each (HasHeadsOf rs) (l ++ e ∷ f ∷ [])
        → e.resource_place ≡ f.resource_place → e.scope_place ≡ f.scope_place
        → group (l ++ e ∷ f ∷ []) ≡ seam (group (l ++ e ∷ [])) (record_of f ∷ []) }
{}

/// The canonical bytes of a seam are at least as many as those of its first meaning (`seam`), and so it is where scope records come
/// under the last resource record (`under`). Those of joined meanings are at least as many as with only the first of them joined
/// (`join`), and those of a flat list at least as many as those of a prefix (`prefix`).
pub fn joining_never_shortens()
    ensures seam { (a : List Tree) → (b : List Tree) → length (meaning_text resource_profiles a) ≤ length (meaning_text resource_profiles (seam a b)) }
    ensures under { (a : List Tree) → (b : List Tree) → length (meaning_text resource_profiles a) ≤ length (meaning_text resource_profiles (under_last a b)) }
    ensures join { (ms : List (List Tree)) → (ns : List (List Tree))
        → length (meaning_text resource_profiles (join ms)) ≤ length (meaning_text resource_profiles (join (ms ++ ns))) }
    ensures prefix { (l : List FlatProfile) → (more : List FlatProfile) → size_of l ≤ size_of (l ++ more) }
{}

/// The first part has n profiles if these fit, or are one, and there are no more or one more would not fit (`ends`). If there are
/// more, one more would not fit (`late`). After the first part comes what is cut of the rest in the same way (`next`). So each part
/// fits, or is one profile (`fit`). The parts are the whole list, in order (`all`).
pub fn parts_are_longest()
    ensures ends { (limit : ℕ) → (l : List FlatProfile) → (n : ℕ) → 0 < n → n ≤ length l → (n ≡ 1) ⊎ (size_of (take n l) ≤ limit)
        → (n ≡ length l) ⊎ (limit < size_of (take (suc n) l)) → first_length limit l ≡ n }
    ensures late { (limit : ℕ) → (l : List FlatProfile) → let n = first_length limit l in (n < length l → limit < size_of (take (suc n) l)) }
    ensures next { (limit : ℕ) → (e : FlatProfile) → (l : List FlatProfile) → let n = first_length limit (e ∷ l) in
        (cut (length (e ∷ l)) limit (e ∷ l) ≡ take n (e ∷ l) ∷ cut (length (drop n (e ∷ l))) limit (drop n (e ∷ l))) }
    ensures fit { (limit : ℕ) → (l : List FlatProfile) → Each (λ p. (size_of p ≤ limit) ⊎ (length p ≡ 1)) (cut (length l) limit l) }
    ensures all { (limit : ℕ) → (l : List FlatProfile) → flat_map (λ p. p) (cut (length l) limit l) ≡ l }
{}

/// The parts of a flat list come one after the other: none of the empty list (`none`); else the first, and then those of what is left
/// (`next`). The first has at least one profile and no more than there are (`between`). It fits, or is one profile (`size`).
pub fn parts_come_one_by_one()
    ensures none { (limit : ℕ) → let nothing : List (List Tree) = [] in (flat_parts limit [] ≡ nothing) }
    ensures next { (limit : ℕ) → (l : List FlatProfile) → 0 < length l → let n = first_length limit l in
        (flat_parts limit l ≡ group (take n l) ∷ flat_parts limit (drop n l)) }
    ensures between { (limit : ℕ) → (l : List FlatProfile) → 0 < length l → (0 < first_length limit l) × (first_length limit l ≤ length l) }
    ensures size { (limit : ℕ) → (l : List FlatProfile) → let n = first_length limit l in ((size_of (take n l) ≤ limit) ⊎ (n ≡ 1)) }
{}

/// What is written after a draft's records makes a draft of the seam: its parts are those that it had, and the new ones without the
/// heads that they repeat.
pub fn drafts_are_joined()
    ensures { (d : Tables) → (e : Tables) → (ms : List Tree) → (ns : List Tree) → (xs : List Tree) → (ys : List Tree)
        → Drafted resource_profiles d ms xs → IsDeduplicated e → WrittenEach resource_profiles (values d) (values e) ns ys
        → (zs : List Tree) × Drafted resource_profiles e (seam ms ns) zs × (record_parts zs ≡ record_parts xs ++ drop (repeated_heads ms ns) (record_parts ys)) }
{}

/// The heads of what a message means can be written, if the message can (`messages`); and so can those of a seam, if those of the
/// two meanings can (`seams`).
pub fn heads_fit()
    ensures messages { (x : Value (message resource_profiles)) → Fits (message resource_profiles) x → HeadsFit (meaning_of resource_profiles x) }
    ensures seams { (a : List Tree) → (b : List Tree) → HeadsFit a → HeadsFit b → HeadsFit (seam a b) }
{}

/// A seam of trees that are such as records mean is such trees (`means`); and where their leaves are in their ranges, so are its
/// own (`ranges`).
pub fn seams_are_meanings()
    ensures means { (a : List Tree) → (b : List Tree) → Each (IsMeaning resource_profiles) a → Each (IsMeaning resource_profiles) b → Each (IsMeaning resource_profiles) (seam a b) }
    ensures ranges { (a : List Tree) → (b : List Tree) → Each (HasRange resource_profiles) a → Each (HasRange resource_profiles) b → Each (HasRange resource_profiles) (seam a b) }
{}

/// What comes of two meanings by `under_last` has heads that can be written, if both have (`heads`), is trees such as records mean
/// (`means`), and has its leaves in their ranges (`ranges`).
pub fn under_last_can_be_written()
    ensures heads { (a : List Tree) → (b : List Tree) → HeadsFit a → HeadsFit b → HeadsFit (under_last a b) }
    ensures means { (a : List Tree) → (b : List Tree) → Each (IsMeaning resource_profiles) a → Each (IsMeaning resource_profiles) b → Each (IsMeaning resource_profiles) (under_last a b) }
    ensures ranges { (a : List Tree) → (b : List Tree) → Each (HasRange resource_profiles) a → Each (HasRange resource_profiles) b → Each (HasRange resource_profiles) (under_last a b) }
{}

/// What is written after a draft's records, with nothing joined, makes a draft of the one meaning and then the other, which has all
/// parts of both (`drafts`). Its heads can be written, if those of both can (`heads`); it is trees such as records mean (`means`), and
/// has its leaves in their ranges (`ranges`).
pub fn meanings_are_appended()
    ensures drafts { (d : Tables) → (e : Tables) → (ms : List Tree) → (ns : List Tree) → (xs : List Tree) → (ys : List Tree)
        → Drafted resource_profiles d ms xs → IsDeduplicated e → WrittenEach resource_profiles (values d) (values e) ns ys
        → (zs : List Tree) × Drafted resource_profiles e (ms ++ ns) zs × (record_parts zs ≡ record_parts xs ++ record_parts ys) }
    ensures heads { (a : List Tree) → (b : List Tree) → HeadsFit a → HeadsFit b → HeadsFit (a ++ b) }
    ensures means { (a : List Tree) → (b : List Tree) → Each (IsMeaning resource_profiles) a → Each (IsMeaning resource_profiles) b → Each (IsMeaning resource_profiles) (a ++ b) }
    ensures ranges { (a : List Tree) → (b : List Tree) → Each (HasRange resource_profiles) a → Each (HasRange resource_profiles) b → Each (HasRange resource_profiles) (a ++ b) }
{}

/// Heads that can be written are equal exactly where their two texts are (`resources`, `scopes`). A record that can be written has
/// such a head (`records`).
pub fn head_bytes_tell_heads_apart()
    ensures resources { (r : Tree) → (s : Tree) → HeadFits resource r → HeadFits resource s
        → (same_head r s ≡ true) ↔ ((front resource r ≡ front resource s) × (back r ≡ back s)) }
    ensures scopes { (r : Tree) → (s : Tree) → HeadFits scope r → HeadFits scope s
        → (same_head r s ≡ true) ↔ ((front scope r ≡ front scope s) × (back r ≡ back s)) }
    ensures records { (r : Tree) → IsOf resource_profiles r → Fits resource_profiles (value resource_profiles r) → HeadFits resource r }
{}

/// The texts of the last heads of the one meaning tell how many heads of the other are left out (`repeated`). So what a draft's
/// parts gain depends on texts alone (`drafts`).
pub fn seams_are_found_by_texts()
    ensures repeated { (v : Tables) → (w : Tables) → (a : List Tree) → (b : List Tree) → HeadsFit a → HeadsFit b
        → repeated_heads a b ≡ repeated_parts (last_heads (record_parts (map (renumber v resource_profiles) a))) (record_parts (map (renumber w resource_profiles) b)) }
    ensures drafts { (d : Tables) → (e : Tables) → (ms : List Tree) → (ns : List Tree) → (xs : List Tree) → (ys : List Tree)
        → Drafted resource_profiles d ms xs → IsDeduplicated e → WrittenEach resource_profiles (values d) (values e) ns ys → HeadsFit ms → HeadsFit ns
        → (zs : List Tree) × Drafted resource_profiles e (seam ms ns) zs
        × (record_parts zs ≡ record_parts xs ++ drop (repeated_parts (last_heads (record_parts xs)) (record_parts ys)) (record_parts ys)) }
{}

/// The texts of the last resource head of the one meaning tell whether the first of the other is left out (`repeated`). So what a
/// draft's parts gain, when scope records come under its last resource record, depends on texts alone (`drafts`).
pub fn under_last_is_found_by_texts()
    ensures repeated { (v : Tables) → (w : Tables) → (a : List Tree) → (b : List Tree) → HeadsFit a → HeadsFit b
        → repeated_resource a b ≡ repeated_head (last_heads (record_parts (map (renumber v resource_profiles) a))) (record_parts (map (renumber w resource_profiles) b)) }
    ensures drafts { (d : Tables) → (e : Tables) → (ms : List Tree) → (ns : List Tree) → (xs : List Tree) → (ys : List Tree)
        → Drafted resource_profiles d ms xs → IsDeduplicated e → WrittenEach resource_profiles (values d) (values e) ns ys → HeadsFit ms → HeadsFit ns
        → (zs : List Tree) × Drafted resource_profiles e (under_last ms ns) zs
        × (record_parts zs ≡ record_parts xs ++ drop (repeated_head (last_heads (record_parts xs)) (record_parts ys)) (record_parts ys)) }
{}

/// The profiles of the parts are those of the meanings that are cut, in order, with their heads (`all`). The profiles of several
/// meanings are those of each (`each`).
pub fn parts_have_the_same_profiles()
    ensures all { (limit : ℕ) → (ms : List (List Tree)) → map bare (flat (parts limit ms)) ≡ map bare (flat ms) }
    ensures each { (ms : List (List Tree)) → map bare (flat ms) ≡ flat_map (λ m. map bare (flat (m ∷ []))) ms }
{}
