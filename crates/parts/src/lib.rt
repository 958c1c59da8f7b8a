//! The records of a message as a flat list of parts: their text and its length. The definitions are in `specs/`; each law stands
//! on a public function with no body.
#![tactic(auto)]

ghost use Rattle.std.specs.Prelude.{◌≡◌, ◌≤◌, List, ◌++◌, length, map};
ghost use Rattle.schema.specs.Messages.{resource_profiles};
ghost use Rattle.schema.specs.Shape.{Value};
ghost use Rattle.schema.specs.Texts.{items_text, long_field};
ghost use Rattle.meaning.specs.Message.{meaning_text, record_text, dictionary_text};
ghost use Rattle.meaning.specs.Renumbering.{Drafted};
ghost use Rattle.meaning.specs.Tables.{Tables};
ghost use Rattle.meaning.specs.Tree.{Tree, tree};
ghost use Rattle.parts.specs.Parts.{RecordPart, parts_text};
ghost use Rattle.parts.specs.Records.{record_parts};
ghost use Rattle.parts.specs.Sums.{sums_from, sums_of, sum_of};
ghost use Rattle.parts.specs.Values.{value_parts};

/// The running sums give the length of the text, for every list of parts (`length`), and they go on from those of its front
/// (`append`).
pub fn sums_give_the_length()
    ensures length { (ps : List RecordPart) → length (parts_text ps) ≡ sum_of (sums_of ps) }
    ensures append { (ps : List RecordPart) → (qs : List RecordPart) → sums_of (ps ++ qs) ≡ sums_from (sums_of ps) qs }
{}

/// With more parts at its end a list has no shorter text.
pub fn more_parts_are_longer()
    ensures { (ps : List RecordPart) → (qs : List RecordPart) → length (parts_text ps) ≤ length (parts_text (ps ++ qs)) }
{}

/// The text of the parts of records is the records, each after its tag and length (`text`). The code's records have the parts of
/// their trees (`values`).
pub fn records_have_their_text()
    ensures text { (xs : List Tree) → parts_text (record_parts xs) ≡ items_text 1 (map (record_text resource_profiles) xs) }
    ensures values { (xs : List (Value resource_profiles)) → record_parts (map (tree resource_profiles) xs) ≡ value_parts xs }
{}

/// The text of the parts of a draft's records and then its dictionary are the canonical bytes of the meanings that it stands for.
pub fn drafts_have_their_text()
    ensures { (d : Tables) → (ms : List Tree) → (xs : List Tree) → Drafted resource_profiles d ms xs
        → meaning_text resource_profiles ms ≡ parts_text (record_parts xs) ++ long_field 2 (dictionary_text d) }
{}
