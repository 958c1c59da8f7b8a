//! What comes to a draft, without the heads that are left out.
ghost use Rattle.std.specs.Prelude.{◌≡◌, ◌^◌, ◌∷◌, [], IfOk};
ghost use Rattle.draft_contents.specs.Adding.{AreShorter, added_moved, left_parts, resources_moved};
ghost use Rattle.draft_contents.specs.Repeats.{AreKnown, repeats_resource, repeats_scope};
ghost use Rattle.draft_contents.specs.Singles.{coming, joining_of, single_record, single_scope};
ghost use Rattle.draft_contents.specs.declared.incoming.Joining.TheVariants as how;

use crate::incoming::{Incoming, Joining};
use crate::known::KnownHeads;
use crate::single::Single;
use crate::unrepeated::{Added, unrepeated};
use draft_records::Records;
use pb_wire::{NewIndexes, NoMemory};

/// What is left of what comes, without the heads that are left out. Heads of a profile that are known to be the last ones are not
/// compared. The draft's records stay as they are.
///
/// # Errors
///
/// Out of memory.
pub fn left_of<'s, 'a, I: NewIndexes>(
    records: &mut Records,
    incoming: &Incoming<'s, 'a>,
    known: KnownHeads,
    indexes: &I,
) -> Result<Added<'s, 'a>, NoMemory>
    requires short { AreShorter (2 ^ 63) (resources_moved (I.to indexes.now) (coming incoming.now)) }
    requires known { AreKnown known records.old (coming incoming.now) }
    ensures is { IfOk result (λ a. added_moved (I.to indexes.now) a ≡ left_parts (joining_of incoming.now) records.old (resources_moved (I.to indexes.now) (coming incoming.now))) }
    ensures same { records.new ≡ records.old }
{
    match *incoming {
        Incoming::Records(found) => unrepeated(records, found, indexes),
        Incoming::Profile(single, joining) => {
            left_of_single(records, &single, joining, known, indexes)
        }
    }
}

// The same of one profile.
fn left_of_single<'s, 'a, I: NewIndexes>(
    records: &mut Records,
    single: &Single<'s, 'a>,
    joining: Joining,
    known: KnownHeads,
    indexes: &I,
) -> Result<Added<'s, 'a>, NoMemory>
    requires short { AreShorter (2 ^ 63) (resources_moved (I.to indexes.now) (single_record single.now ∷ [])) }
    requires known { AreKnown known records.old (single_record single.now ∷ []) }
    ensures is { IfOk result (λ a. added_moved (I.to indexes.now) a ≡ left_parts joining records.old (resources_moved (I.to indexes.now) (single_record single.now ∷ []))) }
    ensures same { records.new ≡ records.old }
{
    match joining {
        Joining::Resource => Ok(Added::RecordAlone(*single)),
        Joining::Scope => under_resource(records, single, known, indexes),
        Joining::Seam => under_scope(records, single, known, indexes),
    }
}

// Under the last resource record, if its head is repeated.
fn under_resource<'s, 'a, I: NewIndexes>(
    records: &mut Records,
    single: &Single<'s, 'a>,
    known: KnownHeads,
    indexes: &I,
) -> Result<Added<'s, 'a>, NoMemory>
    requires short { AreShorter (2 ^ 63) (resources_moved (I.to indexes.now) (single_record single.now ∷ [])) }
    requires known { AreKnown known records.old (single_record single.now ∷ []) }
    ensures is { IfOk result (λ a. added_moved (I.to indexes.now) a ≡ left_parts how.Scope records.old (resources_moved (I.to indexes.now) (single_record single.now ∷ []))) }
    ensures same { records.new ≡ records.old }
{
    if repeats_resource(records, single, known, indexes)? {
        Ok(Added::ScopeAlone(*single))
    } else {
        Ok(Added::RecordAlone(*single))
    }
}

// Under the last scope record, if its head and that of its resource record are repeated.
fn under_scope<'s, 'a, I: NewIndexes>(
    records: &mut Records,
    single: &Single<'s, 'a>,
    known: KnownHeads,
    indexes: &I,
) -> Result<Added<'s, 'a>, NoMemory>
    requires short { AreShorter (2 ^ 63) (resources_moved (I.to indexes.now) (single_record single.now ∷ [])) }
    requires known { AreKnown known records.old (single_record single.now ∷ []) }
    ensures is { IfOk result (λ a. added_moved (I.to indexes.now) a ≡ left_parts how.Seam records.old (resources_moved (I.to indexes.now) (single_record single.now ∷ []))) }
    ensures same { records.new ≡ records.old }
{
    if !repeats_resource(records, single, known, indexes)? {
        return Ok(Added::RecordAlone(*single));
    }
    if repeats_scope(records, single, known, indexes)? {
        Ok(Added::ProfileAlone(single.profile))
    } else {
        Ok(Added::ScopeAlone(*single))
    }
}

// Whether the last resource record has the head of the profile's. Where this is known they are not compared.
fn repeats_resource<I: NewIndexes>(
    records: &mut Records,
    single: &Single<'_, '_>,
    known: KnownHeads,
    indexes: &I,
) -> Result<bool, NoMemory>
    requires short { AreShorter (2 ^ 63) (resources_moved (I.to indexes.now) (single_record single.now ∷ [])) }
    requires known { AreKnown known records.old (single_record single.now ∷ []) }
    ensures is { IfOk result (λ b. b ≡ repeats_resource (I.to indexes.now) records.old (single_record single.now)) }
    ensures same { records.new ≡ records.old }
{
    let found = single.resource;
    match known {
        KnownHeads::None => records.is_last_resource(&found.resource, &found.schema_url, indexes),
        KnownHeads::Resource | KnownHeads::Both => Ok(true),
    }
}

// Whether the last scope record has the head of the profile's. Where this is known they are not compared.
fn repeats_scope<I: NewIndexes>(
    records: &mut Records,
    single: &Single<'_, '_>,
    known: KnownHeads,
    indexes: &I,
) -> Result<bool, NoMemory>
    requires short { AreShorter (2 ^ 63) (resources_moved (I.to indexes.now) (single_record single.now ∷ [])) }
    requires known { AreKnown known records.old (single_record single.now ∷ []) }
    ensures is { IfOk result (λ b. b ≡ repeats_scope (I.to indexes.now) records.old (single_scope single.now)) }
    ensures same { records.new ≡ records.old }
{
    let found = single.scope;
    match known {
        KnownHeads::None | KnownHeads::Resource => {
            records.is_last_scope(&found.scope, &found.schema_url, indexes)
        }
        KnownHeads::Both => Ok(true),
    }
}
