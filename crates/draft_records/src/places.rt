//! Where the last heads stand in the two runs.
ghost use Rattle.std.specs.Prelude.{◌≡◌, ◌+◌, ◌≤◌, ◌<◌, ◌^◌, ◌&&◌, length, drop, take, IfOk};
ghost use Rattle.std.specs.Str.{bytes_eq};
ghost use Rattle.schema.specs.Moved.{moved};
ghost use Rattle.schema.specs.Spell.{spell};
ghost use Rattle.schema.specs.Texts.{bytes_field};
ghost use Rattle.parts.specs.LastHeads.{is_head};
ghost use Rattle.draft_records.specs.Places.{IsInside, head_at, places_after};

use crate::put::put_head;
use part_text::Extent;
use pb_wire::{Blob, NewIndexes, NoMemory, Rows, TextRef};

/// Where the two texts of a head begin in their runs, and their lengths.
#[derive(Clone, Copy, Debug)]
pub(crate) struct HeadPlace {
    pub front_at: usize,
    pub front: usize,
    pub back_at: usize,
    pub back: usize,
}

/// Where the head of the last resource record stands, and that of the last scope record in it.
#[derive(Clone, Copy, Debug)]
pub(crate) struct HeadPlaces {
    pub resource: Option<HeadPlace>,
    pub scope: Option<HeadPlace>,
}

/// The places with one more extent, whose texts begin here in the two runs.
pub(crate) fn places_with(
    places: HeadPlaces,
    extent: Extent,
    front_at: usize,
    back_at: usize,
) -> HeadPlaces
    ensures { result ≡ places_after places extent front_at back_at }
{
    match extent {
        Extent::Resource { front, back } => HeadPlaces {
            resource: Some(HeadPlace {
                front_at,
                front: front as usize,
                back_at,
                back: back as usize,
            }),
            scope: None,
        },
        Extent::Scope { front, back } => HeadPlaces {
            resource: places.resource,
            scope: Some(HeadPlace {
                front_at,
                front: front as usize,
                back_at,
                back: back as usize,
            }),
        },
        Extent::Profile { .. } => places,
    }
}

// Whether the bytes of this length at `start` are those from `end` on.
fn is_repeated(run: &[u8], start: usize, len: usize, end: usize) -> bool
    requires within { start + len ≤ end }
    requires end { end ≤ length run.now }
    ensures { result ≡ bytes_eq (take len (drop start (take end run.now))) (drop end run.now) }
{
    let (old, new) = run.split_at(end);
    let (_, rest) = old.split_at(start);
    let (text, _) = rest.split_at(len);
    text == new
}

// Whether the head at this place is this one.
fn is_head_there<T: Rows, I: NewIndexes>(
    texts: &mut Blob,
    backs: &mut Blob,
    place: HeadPlace,
    head: &T,
    schema_url: &TextRef<'_>,
    indexes: &I,
) -> Result<bool, NoMemory>
    requires front { place.front_at + place.front ≤ length texts.old }
    requires back { place.back_at + place.back ≤ length backs.old }
    requires room { length (bytes_field 1 (spell T.shape (moved (I.to indexes.now) T.shape (T.view head.now)))) < 2 ^ 63 }
    ensures is { IfOk result (λ b. b ≡ (bytes_eq (take place.front (drop place.front_at texts.old)) (bytes_field 1 (spell T.shape (moved (I.to indexes.now) T.shape (T.view head.now)))) && bytes_eq (take place.back (drop place.back_at backs.old)) (bytes_field 3 schema_url.now))) }
    ensures same_texts { texts.new ≡ texts.old }
    ensures same_backs { backs.new ≡ backs.old }
{
    let front_end = texts.len();
    let back_end = backs.len();
    put_head(texts, backs, head, schema_url, indexes)?;
    let is_front = is_repeated(texts.as_slice(), place.front_at, place.front, front_end);
    let is_back = is_repeated(backs.as_slice(), place.back_at, place.back, back_end);
    texts.truncate(front_end);
    backs.truncate(back_end);
    Ok(is_front && is_back)
}

/// Whether there is a head at this place, and it is this one. The head is written at the ends of the runs, and taken away.
pub(crate) fn is_head_at<T: Rows, I: NewIndexes>(
    texts: &mut Blob,
    backs: &mut Blob,
    place: Option<HeadPlace>,
    head: &T,
    schema_url: &TextRef<'_>,
    indexes: &I,
) -> Result<bool, NoMemory>
    requires inside { IsInside place (length texts.old) (length backs.old) }
    requires room { length (bytes_field 1 (spell T.shape (moved (I.to indexes.now) T.shape (T.view head.now)))) < 2 ^ 63 }
    ensures is { IfOk result (λ b. b ≡ is_head (head_at place texts.old backs.old) (bytes_field 1 (spell T.shape (moved (I.to indexes.now) T.shape (T.view head.now)))) (bytes_field 3 schema_url.now)) }
    ensures same_texts { texts.new ≡ texts.old }
    ensures same_backs { backs.new ≡ backs.old }
{
    match place {
        None => Ok(false),
        Some(found) => is_head_there(texts, backs, found, head, schema_url, indexes),
    }
}
