//! Laws of marks.
ghost use Rattle.std.specs.Prelude.{◌≡◌};
ghost use Rattle.key_tables.specs.Keys.{ArePrefixes, CanBeCut, Counts, IsMark, Keys, cut_to};

/// Tables that go on from those of a mark can be cut back to it, and are these again.
pub fn marks_lead_back()
    ensures { (mark : Counts) → (base : Keys) → (keys : Keys) → IsMark mark base → ArePrefixes base keys
        → CanBeCut mark keys × (cut_to mark.lengths keys ≡ base) }
{}

/// Tables go on from themselves (`same`), and from those that the ones in between go on from (`over`).
pub fn tables_go_on()
    ensures same { (keys : Keys) → ArePrefixes keys keys }
    ensures over { (a : Keys) → (b : Keys) → (c : Keys) → ArePrefixes a b → ArePrefixes b c → ArePrefixes a c }
{}
