//! What a message means as text for a reader: a line for each record, profile, sample, location and attribute. The definitions are
//! in `specs/`; each law stands on a public function with no body.
#![tactic(auto)]

ghost use Rattle.std.specs.Prelude.{◌≡◌, ◌+◌, ◌==◌, ◌⊎◌, ℕ, pos, negsuc, List, ◌++◌, map, get_or, length, count_by};
ghost use Rattle.std.specs.Fmt.{decimal};
ghost use Rattle.schema.specs.Each.{Each};
ghost use Rattle.schema.specs.Messages.{dictionary, entries_in, entry, location, sample, profile, scope_profiles, resource_profiles, message};
ghost use Rattle.schema.specs.Shape.{Shape, Index, Table, Value, empty};
ghost use Rattle.meaning.specs.Tree.{tree, value};
ghost use Rattle.meaning.specs.Tables.{Tables};
ghost use Rattle.meaning.specs.Meaning.{resolve};
ghost use Rattle.meaning.specs.Message.{tables_in};
ghost use Rattle.shown.specs.Direct.{direct, meant};
ghost use Rattle.shown.specs.TextLine.{TextLine, line_content, line_text, lines_text, numbered, IsVisible};
ghost use Rattle.shown.specs.ShowText.{attribute_line, location_lines, stack_lines, sample_line, sample_lines, profile_lines, scope_lines, resource_lines, show_lines, show_of, show_text};

/// What a value means is the value of what its tree means.
pub fn meant_is_the_meaning()
    ensures { (d : Tables) → (s : Shape) → (v : Value s) → meant d s v ≡ value (direct s) (resolve d s (tree s v)) }
{}

/// An index means what its entry means, and what the empty entry means where the table has none of that number (`entry`). One below 0
/// means what the empty entry means (`below`).
pub fn indexes_mean_their_entries()
    ensures entry { (d : Value dictionary) → (T : Table) → (i : ℕ) → let k = entry T in
        meant (tables_in d) (Index T k) (pos i) ≡ meant (tables_in d) k (get_or (entries_in d T) i (empty k)) }
    ensures below { (d : Value dictionary) → (T : Table) → (i : ℕ) → let k = entry T in
        meant (tables_in d) (Index T k) (negsuc i) ≡ meant (tables_in d) k (empty k) }
{}

/// The text of a message is that of what its records mean.
pub fn messages_show_what_they_mean()
    ensures { (x : Value (message resource_profiles)) → show_text x ≡ show_of (map (meant (tables_in x.1.0) resource_profiles) x.0) }
{}

/// Whatever a message holds, no control byte is in its lines (`lines`), so each byte of the text is the line feed or no control
/// byte (`bytes`), and there are as many line feeds as lines (`feeds`).
pub fn no_control_byte_is_shown()
    ensures lines { (rs : List (Value (direct resource_profiles))) → Each (λ l. Each IsVisible (line_content l)) (show_lines rs) }
    ensures bytes { (rs : List (Value (direct resource_profiles))) → Each (λ b. (b ≡ 10) ⊎ IsVisible b) (show_of rs) }
    ensures feeds { (rs : List (Value (direct resource_profiles))) → count_by (λ b. b == 10) (show_of rs) ≡ length (show_lines rs) }
{}

/// The text of lines is appended as they are (`lines`), and so is that of records, scope records, profiles, samples and locations,
/// whose positions go on.
pub fn texts_go_on()
    ensures lines { (ls : List TextLine) → (ms : List TextLine) → lines_text (ls ++ ms) ≡ lines_text ls ++ lines_text ms }
    ensures resources { (n : ℕ) → (xs : List (Value (direct resource_profiles))) → (ys : List (Value (direct resource_profiles)))
        → lines_text (numbered resource_lines n (xs ++ ys)) ≡ lines_text (numbered resource_lines n xs) ++ lines_text (numbered resource_lines (n + length xs) ys) }
    ensures scopes { (n : ℕ) → (xs : List (Value (direct scope_profiles))) → (ys : List (Value (direct scope_profiles)))
        → lines_text (numbered scope_lines n (xs ++ ys)) ≡ lines_text (numbered scope_lines n xs) ++ lines_text (numbered scope_lines (n + length xs) ys) }
    ensures profiles { (n : ℕ) → (xs : List (Value (direct profile))) → (ys : List (Value (direct profile)))
        → lines_text (numbered profile_lines n (xs ++ ys)) ≡ lines_text (numbered profile_lines n xs) ++ lines_text (numbered profile_lines (n + length xs) ys) }
    ensures samples { (n : ℕ) → (xs : List (Value (direct sample))) → (ys : List (Value (direct sample)))
        → lines_text (numbered sample_lines n (xs ++ ys)) ≡ lines_text (numbered sample_lines n xs) ++ lines_text (numbered sample_lines (n + length xs) ys) }
    ensures locations { (n : ℕ) → (xs : List (Value (direct location))) → (ys : List (Value (direct location)))
        → lines_text (numbered location_lines n (xs ++ ys)) ≡ lines_text (numbered location_lines n xs) ++ lines_text (numbered location_lines (n + length xs) ys) }
{}

/// The text of a sample is its line, its attributes and its stack, and its length is the sum of theirs (`text`, `sum`). The lengths
/// of a sample and of a location depend on its position only by that of its digits (`samples`, `locations`).
pub fn samples_have_their_parts()
    ensures text { (n : ℕ) → (s : Value (direct sample))
        → lines_text (sample_lines n s) ≡ line_text (sample_line n s) ++ (lines_text (map (attribute_line 4) s.1.1.0) ++ lines_text (stack_lines s.0)) }
    ensures sum { (n : ℕ) → (s : Value (direct sample))
        → length (lines_text (sample_lines n s)) ≡ length (line_text (sample_line n s)) + (length (lines_text (map (attribute_line 4) s.1.1.0)) + length (lines_text (stack_lines s.0))) }
    ensures samples { (m : ℕ) → (n : ℕ) → (s : Value (direct sample))
        → length (lines_text (sample_lines n s)) + length (decimal m) ≡ length (lines_text (sample_lines m s)) + length (decimal n) }
    ensures locations { (m : ℕ) → (n : ℕ) → (l : Value (direct location))
        → length (lines_text (location_lines n l)) + length (decimal m) ≡ length (lines_text (location_lines m l)) + length (decimal n) }
{}
