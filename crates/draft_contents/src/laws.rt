//! Laws of drafts, of their marks, and of one profile alone.
ghost use Rattle.std.specs.Prelude.{◌≡◌, ◌<◌, [], ◌∷◌, length, get_or};
ghost use Rattle.operations.specs.Flat.{FlatProfile, flat, group};
ghost use Rattle.otlp_msg.specs.Message.{Message, records_of};
ghost use Rattle.otlp_msg.specs.declared.path.ProfilePos.{ProfilePos};
ghost use Rattle.draft_contents.specs.Contents.{Contents};
ghost use Rattle.draft_contents.specs.declared.mark.DraftMark.{DraftMark};
ghost use Rattle.draft_contents.specs.Draft.{StandsFor};
ghost use Rattle.draft_contents.specs.Marks.{CanBeCutTo, GoesOn, IsMark, cut_to};
ghost use Rattle.draft_contents.specs.Meanings.{Meaning, meaning};
ghost use Rattle.draft_contents.specs.Singles.{IsPosition, alone, flat_index};

/// A draft stands for one meaning.
pub fn a_draft_stands_for_one_meaning()
    ensures { (d : Contents) → (ms : Meaning) → (ns : Meaning) → StandsFor d ms → StandsFor d ns → ms ≡ ns }
{}

/// What goes on from the contents of a mark can be cut back to it, and is these contents again.
pub fn marks_lead_back()
    ensures { (m : DraftMark) → (c : Contents) → (d : Contents) → IsMark m c → GoesOn c d → CanBeCutTo m d × (cut_to m d ≡ c) }
{}

/// Contents go on from themselves (`same`), and from those that the ones in between go on from (`over`). With `marks_lead_back` an older
/// mark stays one after each add, and after going back to a later mark.
pub fn drafts_go_on()
    ensures same { (c : Contents) → GoesOn c c }
    ensures over { (a : Contents) → (b : Contents) → (c : Contents) → GoesOn a b → GoesOn b c → GoesOn a c }
{}

/// The profile at a position is an element of the flat list of its message's meaning (`within`), with these places (`resource_place`,
/// `scope_place`), and alone it means the group of this element (`means`).
pub fn one_profile_is_an_element()
    ensures within { (m : Message) → (pos : ProfilePos) → IsPosition (records_of m) pos → flat_index (records_of m) pos < length (flat (meaning m ∷ [])) }
    ensures resource_place { (m : Message) → (pos : ProfilePos) → (e : FlatProfile) → IsPosition (records_of m) pos
        → (get_or (flat (meaning m ∷ [])) (flat_index (records_of m) pos) e).resource_place ≡ pos.resource }
    ensures scope_place { (m : Message) → (pos : ProfilePos) → (e : FlatProfile) → IsPosition (records_of m) pos
        → (get_or (flat (meaning m ∷ [])) (flat_index (records_of m) pos) e).scope_place ≡ pos.scope }
    ensures means { (m : Message) → (pos : ProfilePos) → (e : FlatProfile) → IsPosition (records_of m) pos
        → meaning (alone m pos) ≡ group (get_or (flat (meaning m ∷ [])) (flat_index (records_of m) pos) e ∷ []) }
{}
