//! The texts that close what is open after some extents. They are looked for from the end, and no further than where a record
//! begins.
ghost use Rattle.std.specs.Prelude.{◌≡◌, ◌≤◌, ◌++◌, ◌∷◌, [], length, MatchOption};
ghost use Rattle.part_text.specs.Extents.{backs_len};
ghost use Rattle.part_text.specs.Remainders.{scope_open, resource_open, scope_closing, resource_closing};

use crate::extent::Extent;

/// Texts that close a scope record and the resource record around it, one after the other.
#[derive(Clone, Copy)]
pub(crate) struct Closing<'a> {
    pub scope: &'a [u8],
    pub resource: &'a [u8],
}

/// The last extent, and those before it.
pub(crate) fn split_last(extents: &[Extent]) -> Option<(Extent, &[Extent])>
    ensures { MatchOption result (extents.now ≡ []) (λ last. extents.now ≡ last.1.now ++ last.0 ∷ []) }
{
    match extents {
        [more @ .., extent] => Some((*extent, more)),
        [] => None,
    }
}

// The text that closes the scope record that is open after these extents, whose closing texts end at a place of `backs`.
fn open_scope<'a>(extents: &[Extent], backs: &'a [u8], end: usize) -> &'a [u8]
    requires end { end ≡ backs_len extents.now }
    requires within { end ≤ length backs.now }
    ensures { result.now ≡ scope_open extents.now backs.now [] }
{
    let mut left = extents;
    while let Some((extent, more)) = split_last(left) {
        match extent {
            Extent::Profile { .. } => left = more,
            Extent::Scope { back, .. } => return &backs[end - back as usize..end],
            Extent::Resource { .. } => return &[],
        }
    }
    &[]
}

// The text that closes the resource record that is open after these extents.
fn open_resource<'a>(extents: &[Extent], backs: &'a [u8], end: usize) -> &'a [u8]
    requires end { end ≡ backs_len extents.now }
    requires within { end ≤ length backs.now }
    ensures { result.now ≡ resource_open extents.now backs.now [] }
{
    let mut left = extents;
    let mut last = end;
    while let Some((extent, more)) = split_last(left) {
        match extent {
            Extent::Profile { .. } => left = more,
            Extent::Scope { back, .. } => {
                last -= back as usize;
                left = more;
            }
            Extent::Resource { back, .. } => return &backs[last - back as usize..last],
        }
    }
    &[]
}

/// What closes the records that are open after these extents, whose closing texts end at a place of `backs`.
pub(crate) fn open_records<'a>(extents: &[Extent], backs: &'a [u8], end: usize) -> Closing<'a>
    requires end { end ≡ backs_len extents.now }
    requires within { end ≤ length backs.now }
    ensures scope { result.scope.now ≡ scope_open extents.now backs.now [] }
    ensures resource { result.resource.now ≡ resource_open extents.now backs.now [] }
{
    Closing {
        scope: open_scope(extents, backs, end),
        resource: open_resource(extents, backs, end),
    }
}

/// What closes records in front of an extent that comes after these.
pub(crate) fn closing_before<'a>(
    extent: Extent,
    extents: &[Extent],
    backs: &'a [u8],
    end: usize,
) -> Closing<'a>
    requires end { end ≡ backs_len extents.now }
    requires within { end ≤ length backs.now }
    ensures scope { result.scope.now ≡ scope_closing extent (scope_open extents.now backs.now []) }
    ensures resource { result.resource.now ≡ resource_closing extent (resource_open extents.now backs.now []) }
{
    match extent {
        Extent::Resource { .. } => open_records(extents, backs, end),
        Extent::Scope { .. } => Closing {
            scope: open_scope(extents, backs, end),
            resource: &[],
        },
        Extent::Profile { .. } => Closing {
            scope: &[],
            resource: &[],
        },
    }
}
