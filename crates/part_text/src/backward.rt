//! The text of parts, from back to front in place: each text is moved up, so that what is still to be moved stays as it is.
ghost use Rattle.std.specs.Prelude.{◌≡◌, ◌+◌, ◌*◌, ◌<◌, ◌≤◌, ◌^◌, ◌++◌, length, drop};
ghost use Rattle.schema.specs.Texts.{varint};
ghost use Rattle.parts.specs.Parts.{parts_text};
ghost use Rattle.part_text.specs.Extents.{front_len, back_len, fronts_len, backs_len, parts_in};
ghost use Rattle.part_text.specs.Writes.{IsPutBefore};
ghost use Rattle.part_text.specs.Remainders.{number_of as field_of, extent_text, payload_len_before, scope_before, resource_before};

use crate::extent::Extent;
use crate::open::{Closing, closing_before, open_records, split_last};
use crate::place::{move_up, put_text, put_varint};

// Bytes that are moved at once.
const BLOCK: usize = 4096;

// Where what is put so far begins, and where the scope record and the resource record end that are open there.
#[derive(Clone, Copy)]
struct Places {
    put: usize,
    scope: usize,
    resource: usize,
}

// The bytes of an extent's text in front.
fn front_of(extent: Extent) -> usize
    ensures { result ≡ front_len extent }
{
    match extent {
        Extent::Resource { front, .. } => front as usize,
        Extent::Scope { front, .. } => front as usize,
        Extent::Profile { len } => len as usize,
    }
}

// The bytes of the text that closes an extent's record.
fn back_of(extent: Extent) -> usize
    ensures { result ≡ back_len extent }
{
    match extent {
        Extent::Resource { back, .. } => back as usize,
        Extent::Scope { back, .. } => back as usize,
        Extent::Profile { .. } => 0,
    }
}

// The number of an extent's field.
fn number_of(extent: Extent) -> u32
    ensures is { result ≡ field_of extent }
    ensures most { result ≤ 2 }
{
    match extent {
        Extent::Resource { .. } => 1,
        Extent::Scope { .. } | Extent::Profile { .. } => 2,
    }
}

// The length of an extent's payload: its text in front comes before what is put so far.
fn payload_len(extent: Extent, at: Places) -> u64
    requires scope { at.put ≤ at.scope }
    requires resource { at.put ≤ at.resource }
    requires scope_most { at.scope ≤ 2 ^ 59 }
    requires resource_most { at.resource ≤ 2 ^ 59 }
    ensures { result ≡ payload_len_before extent at.put at.scope at.resource }
{
    match extent {
        Extent::Resource { front, .. } => front as u64 + (at.resource - at.put) as u64,
        Extent::Scope { front, .. } => front as u64 + (at.scope - at.put) as u64,
        Extent::Profile { len } => len as u64,
    }
}

// Puts a tag and a length in front of a place, and says where they begin.
fn put_head(bytes: &mut [u8], end: usize, number: u32, len: u64) -> usize
    requires number { number < 2 ^ 29 }
    requires room { length (varint (number * 8 + 2)) + length (varint len) ≤ end }
    requires within { end ≤ length bytes.old }
    ensures { IsPutBefore bytes.old bytes.new (varint (number * 8 + 2) ++ varint len) result end }
{
    let end = put_varint(bytes, end, len);
    put_varint(bytes, end, number as u64 * 8 + 2)
}

// Puts what closes records in front of a place, where the resource record ends.
fn put_closing(bytes: &mut [u8], end: usize, closing: Closing<'_>) -> Places
    requires room { length closing.scope.now + length closing.resource.now ≤ end }
    requires within { end ≤ length bytes.old }
    ensures put { IsPutBefore bytes.old bytes.new (closing.entry.scope.now ++ closing.entry.resource.now) result.put end }
    ensures scope { result.scope ≡ result.put + length closing.entry.scope.now }
    ensures resource { result.resource ≡ end }
{
    let scope = put_text(bytes, end, closing.resource);
    let put = put_text(bytes, scope, closing.scope);
    Places {
        put,
        scope,
        resource: end,
    }
}

// The places before an extent, by those in front of it and those after it.
fn places_before(extent: Extent, here: Places, after: Places) -> Places
    ensures put { result.put ≡ here.put }
    ensures scope { result.scope ≡ scope_before extent here.scope after.scope }
    ensures resource { result.resource ≡ resource_before extent here.resource after.resource }
{
    match extent {
        Extent::Resource { .. } => here,
        Extent::Scope { .. } => Places {
            put: here.put,
            scope: here.scope,
            resource: after.resource,
        },
        Extent::Profile { .. } => Places {
            put: here.put,
            scope: after.scope,
            resource: after.resource,
        },
    }
}

// Puts an extent, whose text begins at `from`, and in front of it what closes records.
fn put_extent(
    bytes: &mut [u8],
    block: &mut [u8],
    extent: Extent,
    payload: u64,
    from: usize,
    closing: Closing<'_>,
    at: Places,
) -> Places
    requires block { 0 < length block.old }
    requires room { from + (length closing.scope.now + length closing.resource.now + (length (varint (field_of extent * 8 + 2)) + length (varint payload)) + front_len extent) ≤ at.put }
    requires within { at.put ≤ length bytes.old }
    ensures put { IsPutBefore bytes.old bytes.new ((closing.entry.scope.now ++ closing.entry.resource.now) ++ extent_text extent payload (drop from bytes.old)) result.put at.put }
    ensures scope { result.scope ≡ scope_before extent (result.put + length closing.entry.scope.now) at.scope }
    ensures resource { result.resource ≡ resource_before extent (result.put + length closing.entry.scope.now + length closing.entry.resource.now) at.resource }
    ensures block { length block.new ≡ length block.old }
{
    let text = move_up(bytes, from, front_of(extent), at.put, block);
    let head = put_head(bytes, text, number_of(extent), payload);
    let here = put_closing(bytes, head, closing);
    places_before(extent, here, at)
}

/// Puts the text of the parts that these extents cut from the bytes and from `backs`, in place: their texts are the first bytes,
/// `texts` in all, and the text of the parts ends at `end`.
pub(crate) fn put_parts(
    bytes: &mut [u8],
    texts: usize,
    end: usize,
    extents: &[Extent],
    backs: &[u8],
)
    requires fronts { fronts_len extents.now ≡ texts }
    requires backs { backs_len extents.now ≡ length backs.now }
    requires within { end ≤ length bytes.old }
    requires held { texts ≤ length bytes.old }
    requires size { end ≡ length (parts_text (parts_in extents.now bytes.old backs.now)) }
    requires most { end ≤ 2 ^ 59 }
    ensures { bytes.new ≡ parts_text (parts_in extents.now bytes.old backs.now) ++ drop end bytes.old }
{
    let mut block = [0u8; BLOCK];
    let mut left = extents;
    let mut front = texts;
    let mut back = backs.len();
    let mut at = put_closing(bytes, end, open_records(left, backs, back));
    while let Some((extent, more)) = split_last(left) {
        front -= front_of(extent);
        back -= back_of(extent);
        let payload = payload_len(extent, at);
        let closing = closing_before(extent, more, backs, back);
        at = put_extent(bytes, &mut block, extent, payload, front, closing, at);
        left = more;
    }
}
