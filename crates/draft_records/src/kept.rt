//! What is kept of records, and the work on it.
ghost use Rattle.std.specs.Prelude.{◌≡◌, ◌+◌, ◌≤◌, ◌<◌, ◌^◌, ◌++◌, ◌∷◌, [], ℕ, List, length, take, IfErr, IfOk, OnErr, OnOk};
ghost use Rattle.schema.specs.Moved.{moved};
ghost use Rattle.schema.specs.Spell.{spell};
ghost use Rattle.schema.specs.Texts.{bytes_field};
ghost use Rattle.parts.specs.LastHeads.{is_head, last_heads};
ghost use Rattle.parts.specs.Parts.{ProfileText, ResourceBegins, ScopeBegins, parts_text};
ghost use Rattle.parts.specs.Sums.{sums_of, with_sum};
ghost use Rattle.part_text.specs.Extents.{back_len, front_len, part_in};
ghost use Rattle.draft_records.specs.Kept.{IsAwaiting, IsKept, awaited, parts_of};
ghost use Rattle.draft_records.specs.Marks.{CanBeCut, IsMark};

use crate::mark::RecordsMark;
use crate::places::{HeadPlaces, is_head_at, places_with};
use crate::put::{put_head, put_profile};
use crate::totals::Totals;
use part_text::{Ending, Extent, into_whole_text};
use pb_wire::{Blob, NewIndexes, NoMemory, Rows, TextRef};
use std::alloc::Global;

/// The extents, their texts one after the other, the texts that close records one after the other, the sums, and where the last
/// heads stand.
#[derive(Drop)]
pub(crate) struct Kept {
    pub extents: Vec<Extent>,
    pub texts: Blob,
    pub backs: Blob,
    pub totals: Totals,
    pub places: HeadPlaces,
}

/// No records.
pub(crate) fn none(alloc: Global) -> Kept
    ensures kept { IsKept result }
    ensures none { parts_of result ≡ [] }
{
    Kept {
        extents: Vec::new(alloc),
        texts: Blob::begin(alloc),
        backs: Blob::begin(alloc),
        totals: Totals::none(),
        places: HeadPlaces {
            resource: None,
            scope: None,
        },
    }
}

// The sums with the part of one more extent.
fn totals_with(totals: Totals, extent: Extent) -> Result<Totals, NoMemory>
    ensures { IfOk result (λ s. (t : List ℕ) → (u : List ℕ) → front_len extent ≤ length t → back_len extent ≤ length u → s ≡ with_sum totals (part_in extent t u)) }
{
    match extent {
        Extent::Resource { front, back } => totals.with_resource(front as u64, back as u64),
        Extent::Scope { front, back } => totals.with_scope(front as u64, back as u64),
        Extent::Profile { len } => totals.with_profile(len as u64),
    }
}

// The lengths of the texts of an extent.
fn lens(extent: Extent) -> (usize, usize)
    ensures front { result.0 ≡ front_len extent }
    ensures back { result.1 ≡ back_len extent }
{
    match extent {
        Extent::Resource { front, back } => (front as usize, back as usize),
        Extent::Scope { front, back } => (front as usize, back as usize),
        Extent::Profile { len } => (len as usize, 0),
    }
}

// Puts an extent, whose texts stand at the ends, after the others.
fn push(kept: &mut Kept, extent: Extent) -> Result<(), NoMemory>
    requires { IsAwaiting kept.old extent }
    ensures kept { OnOk result (IsKept kept.new) }
    ensures ok { OnOk result (parts_of kept.new ≡ parts_of kept.old ++ awaited kept.old extent ∷ []) }
    ensures waiting { OnErr result (IsAwaiting kept.new extent) }
    ensures same { OnErr result (parts_of kept.new ≡ parts_of kept.old) }
{
    let totals = totals_with(kept.totals, extent)?;
    let (front, back) = lens(extent);
    let front_at = kept.texts.len() - front;
    let back_at = kept.backs.len() - back;
    kept.extents.push(extent)?;
    kept.totals = totals;
    kept.places = places_with(kept.places, extent, front_at, back_at);
    Ok(())
}

// Drops the texts of an extent that is not there.
fn drop_texts(kept: &mut Kept, extent: Extent)
    requires { IsAwaiting kept.old extent }
    ensures kept { IsKept kept.new }
    ensures same { parts_of kept.new ≡ parts_of kept.old }
{
    let (front, back) = lens(extent);
    let texts = kept.texts.len() - front;
    let backs = kept.backs.len() - back;
    kept.texts.truncate(texts);
    kept.backs.truncate(backs);
}

// Puts an extent, whose texts stand at the ends, after the others; or drops its texts.
fn add_extent(kept: &mut Kept, extent: Extent) -> Result<(), NoMemory>
    requires { IsAwaiting kept.old extent }
    ensures kept { IsKept kept.new }
    ensures ok { OnOk result (parts_of kept.new ≡ parts_of kept.old ++ awaited kept.old extent ∷ []) }
    ensures same { OnErr result (parts_of kept.new ≡ parts_of kept.old) }
{
    match push(kept, extent) {
        Ok(()) => Ok(()),
        Err(stop) => {
            drop_texts(kept, extent);
            Err(stop)
        }
    }
}

/// A resource record begins.
#[tactic(auto, using(schema_laws::proofs::Lengths::bytes_field_len))]
pub(crate) fn begin_resource<T: Rows, I: NewIndexes>(
    kept: &mut Kept,
    head: &T,
    schema_url: &TextRef<'_>,
    indexes: &I,
) -> Result<(), NoMemory>
    requires kept { IsKept kept.old }
    requires room { length (spell T.shape (moved (I.to indexes.now) T.shape (T.view head.now))) < 2 ^ 62 }
    ensures kept { IsKept kept.new }
    ensures ok { OnOk result (parts_of kept.new ≡ parts_of kept.old ++ ResourceBegins (bytes_field 1 (spell T.shape (moved (I.to indexes.now) T.shape (T.view head.now)))) (bytes_field 3 schema_url.now) ∷ []) }
    ensures same { OnErr result (parts_of kept.new ≡ parts_of kept.old) }
{
    let (front, back) = put_head(&mut kept.texts, &mut kept.backs, head, schema_url, indexes)?;
    add_extent(kept, Extent::Resource { front, back })
}

/// A scope record begins.
#[tactic(auto, using(schema_laws::proofs::Lengths::bytes_field_len))]
pub(crate) fn begin_scope<T: Rows, I: NewIndexes>(
    kept: &mut Kept,
    head: &T,
    schema_url: &TextRef<'_>,
    indexes: &I,
) -> Result<(), NoMemory>
    requires kept { IsKept kept.old }
    requires room { length (spell T.shape (moved (I.to indexes.now) T.shape (T.view head.now))) < 2 ^ 62 }
    ensures kept { IsKept kept.new }
    ensures ok { OnOk result (parts_of kept.new ≡ parts_of kept.old ++ ScopeBegins (bytes_field 1 (spell T.shape (moved (I.to indexes.now) T.shape (T.view head.now)))) (bytes_field 3 schema_url.now) ∷ []) }
    ensures same { OnErr result (parts_of kept.new ≡ parts_of kept.old) }
{
    let (front, back) = put_head(&mut kept.texts, &mut kept.backs, head, schema_url, indexes)?;
    add_extent(kept, Extent::Scope { front, back })
}

/// A profile is put at the end.
pub(crate) fn add_profile<T: Rows, I: NewIndexes>(
    kept: &mut Kept,
    profile: &T,
    indexes: &I,
) -> Result<(), NoMemory>
    requires kept { IsKept kept.old }
    requires room { length (spell T.shape (moved (I.to indexes.now) T.shape (T.view profile.now))) < 2 ^ 62 }
    ensures kept { IsKept kept.new }
    ensures ok { OnOk result (parts_of kept.new ≡ parts_of kept.old ++ ProfileText (spell T.shape (moved (I.to indexes.now) T.shape (T.view profile.now))) ∷ []) }
    ensures same { OnErr result (parts_of kept.new ≡ parts_of kept.old) }
{
    let len = put_profile(&mut kept.texts, profile, indexes)?;
    add_extent(kept, Extent::Profile { len })
}

/// Whether the last resource record begins with this head.
pub(crate) fn is_last_resource<T: Rows, I: NewIndexes>(
    kept: &mut Kept,
    head: &T,
    schema_url: &TextRef<'_>,
    indexes: &I,
) -> Result<bool, NoMemory>
    requires kept { IsKept kept.old }
    requires room { length (bytes_field 1 (spell T.shape (moved (I.to indexes.now) T.shape (T.view head.now)))) < 2 ^ 63 }
    ensures kept { IsKept kept.new }
    ensures is { IfOk result (λ b. b ≡ is_head (last_heads (parts_of kept.old)).resource (bytes_field 1 (spell T.shape (moved (I.to indexes.now) T.shape (T.view head.now)))) (bytes_field 3 schema_url.now)) }
    ensures same { parts_of kept.new ≡ parts_of kept.old }
{
    let place = kept.places.resource;
    is_head_at(
        &mut kept.texts,
        &mut kept.backs,
        place,
        head,
        schema_url,
        indexes,
    )
}

/// Whether the last scope record of the last resource record begins with this head.
pub(crate) fn is_last_scope<T: Rows, I: NewIndexes>(
    kept: &mut Kept,
    head: &T,
    schema_url: &TextRef<'_>,
    indexes: &I,
) -> Result<bool, NoMemory>
    requires kept { IsKept kept.old }
    requires room { length (bytes_field 1 (spell T.shape (moved (I.to indexes.now) T.shape (T.view head.now)))) < 2 ^ 63 }
    ensures kept { IsKept kept.new }
    ensures is { IfOk result (λ b. b ≡ is_head (last_heads (parts_of kept.old)).scope (bytes_field 1 (spell T.shape (moved (I.to indexes.now) T.shape (T.view head.now)))) (bytes_field 3 schema_url.now)) }
    ensures same { parts_of kept.new ≡ parts_of kept.old }
{
    let place = kept.places.scope;
    is_head_at(
        &mut kept.texts,
        &mut kept.backs,
        place,
        head,
        schema_url,
        indexes,
    )
}

/// Takes memory for so many more bytes of texts at once.
pub(crate) fn reserve(kept: &mut Kept, more: usize) -> Result<(), NoMemory>
    requires { IsKept kept.old }
    ensures kept { IsKept kept.new }
    ensures same { parts_of kept.new ≡ parts_of kept.old }
{
    kept.texts.reserve(more)
}

/// The bytes of all records.
pub(crate) fn text_len(kept: &Kept) -> u64
    requires { IsKept kept.now }
    ensures is { result ≡ length (parts_text (parts_of kept.now)) }
    ensures most { result ≤ 2 ^ 59 }
{
    kept.totals.total()
}

/// A mark of the records as they are.
pub(crate) fn mark(kept: &Kept) -> RecordsMark
    requires { IsKept kept.now }
    ensures { IsMark result (parts_of kept.now) }
{
    RecordsMark {
        extents: kept.extents.len(),
        texts: kept.texts.len(),
        backs: kept.backs.len(),
        totals: kept.totals,
        places: kept.places,
    }
}

/// Drops what came after the mark. It takes no memory.
pub(crate) fn back_to(kept: &mut Kept, mark: RecordsMark)
    requires kept { IsKept kept.old }
    requires mark { CanBeCut mark (parts_of kept.old) }
    ensures kept { IsKept kept.new }
    ensures back { parts_of kept.new ≡ take mark.extents (parts_of kept.old) }
{
    kept.extents.truncate(mark.extents);
    kept.texts.truncate(mark.texts);
    kept.backs.truncate(mark.backs);
    kept.totals = mark.totals;
    kept.places = mark.places;
}

/// The text of the records and the ending after it, in the memory of the texts; or what was kept.
pub(crate) fn finish<E: Ending>(kept: Kept, ending: &E) -> Result<Blob, Kept>
    requires { IsKept kept }
    ensures ok { IfOk result (λ text. text ≡ parts_text (parts_of kept) ++ E.text ending.now) }
    ensures kept { IfErr result IsKept }
    ensures same { IfErr result (λ back. parts_of back ≡ parts_of kept) }
{
    let len = text_len(&kept);
    let Kept {
        extents,
        texts,
        backs,
        totals,
        places,
    } = kept;
    match into_whole_text(texts, &extents, backs.as_slice(), len, ending) {
        Ok(text) => Ok(text),
        Err(texts) => Err(Kept {
            extents,
            texts,
            backs,
            totals,
            places,
        }),
    }
}

/// The text of the records and the ending after it, in memory of its own.
pub(crate) fn text<E: Ending>(kept: &Kept, alloc: Global, ending: &E) -> Result<Blob, NoMemory>
    requires { IsKept kept.now }
    ensures { IfOk result (λ text. text ≡ parts_text (parts_of kept.now) ++ E.text ending.now) }
{
    let len = text_len(kept);
    let mut texts = Blob::with_room(alloc, len.saturating_add(ending.len()) as usize)?;
    texts.append(kept.texts.as_slice())?;
    match into_whole_text(texts, &kept.extents, kept.backs.as_slice(), len, ending) {
        Ok(text) => Ok(text),
        Err(_) => Err(NoMemory),
    }
}
