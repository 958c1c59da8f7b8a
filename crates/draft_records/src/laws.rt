//! Laws of marks.
ghost use Rattle.std.specs.Prelude.{◌≡◌, ◌≤◌, ◌++◌, ℕ, List, take};
ghost use Rattle.parts.specs.Parts.{RecordPart};
ghost use Rattle.draft_records.specs.Marks.{CanBeCut, IsMark, Mark};

/// Records to which more was added can be cut back to a mark, and are then what they were (`back`). A mark to which a list can be
/// cut stays one when more is added (`stays`), and when the list is cut back to a later one (`cut`).
pub fn marks_lead_back()
    ensures back { (m : Mark) → (ps : List RecordPart) → (more : List RecordPart) → IsMark m ps → CanBeCut m (ps ++ more) × (take m.extents (ps ++ more) ≡ ps) }
    ensures stays { (m : Mark) → (ps : List RecordPart) → (more : List RecordPart) → CanBeCut m ps → CanBeCut m (ps ++ more) × (take m.extents (ps ++ more) ≡ take m.extents ps) }
    ensures cut { (m : Mark) → (ps : List RecordPart) → (n : ℕ) → m.extents ≤ n → CanBeCut m ps → CanBeCut m (take n ps) × (take m.extents (take n ps) ≡ take m.extents ps) }
{}
