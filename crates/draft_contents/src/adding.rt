//! What comes to a draft, added to its records.
ghost use Rattle.std.specs.Prelude.{◌≡◌, ◌+◌, ◌≤◌, ◌^◌, ◌++◌, length, IfErr, OnOk, OnErr};
ghost use Rattle.schema.specs.Fits.{Fits};
ghost use Rattle.schema.specs.Messages.{resource_profiles, envelope};
ghost use Rattle.meaning.specs.Canonical.{records as records_of};
ghost use Rattle.otlp_msg.specs.Message.{message_limit};
ghost use Rattle.schema.specs.Prefix.{IsPrefix};
ghost use Rattle.renumber.specs.Entries.{IsPart, IsSource, entry_count, old_entries};
ghost use Rattle.renumber.specs.Walk.{Moves, missed};
ghost use Rattle.draft_contents.specs.Adding.{AreRenumbered, AreShorter, IsLimitOf, IsRefused, IsTooLong, added_moved, message_with, left_parts, moved_parts, size_with};
ghost use Rattle.draft_contents.specs.Contents.{contents, whole_text};
ghost use Rattle.draft_contents.specs.Repeats.{AreKnown};
ghost use Rattle.draft_contents.specs.Draft.{IsFaultOfPlaced, StandsForPlaced, StandsForSome};
ghost use Rattle.draft_contents.specs.Marks.{GoesOn};
ghost use Rattle.draft_contents.specs.Singles.{coming, joining_of};

use crate::contents::whole_len;
use crate::fault::BuildFault;
use crate::heads::left_of;
use crate::incoming::{Incoming, walk_over};
use crate::known::KnownHeads;
use crate::mark::{kept_or_cut_back, mark_of};
use crate::measure::with_added;
use crate::put::put_added;
use crate::unrepeated::Added;
use dict_rec::Dictionary;
use draft_records::Records;
use key_tables::KeyTables;
use otlp_msg::MESSAGE_LIMIT;
use pb_wire::{NewIndexes, NoMemory};
use renumber::{Memo, Walk};
use std::alloc::Global;
use std::hash::BuildHasher;
use std::sync::ledger::Ledger;
use tables::Steps;

/// Adds what comes from a message with this dictionary, unless the whole would be longer than a message may be. After an error all
/// is as before.
pub fn add_within_limit<S: BuildHasher + Drop, L: Ledger>(
    tables: &mut KeyTables<S>,
    records: &mut Records,
    alloc: Global,
    dictionary: &Dictionary<'_>,
    incoming: &Incoming<'_, '_>,
    steps: &mut Steps<L>,
) -> Result<(), BuildFault>
    requires stands { StandsForSome (contents tables.old records.old) }
    requires source { IsSource dictionary.now }
    requires parts { IsPart (records_of resource_profiles) dictionary.now (coming incoming.now, tt) }
    requires fits { Fits envelope (message_with (coming incoming.now) dictionary.now) }
    ensures ok { OnOk result (StandsForPlaced (joining_of incoming.now) (contents tables.old records.old) (contents tables.new records.new) (message_with (coming incoming.now) dictionary.now)) }
    ensures fault { IfErr result (IsFaultOfPlaced message_limit (joining_of incoming.now) (contents tables.old records.old) (message_with (coming incoming.now) dictionary.now)) }
    ensures same { OnErr result (contents tables.new records.new ≡ contents tables.old records.old) }
    ensures grown { GoesOn (contents tables.old records.old) (contents tables.new records.new) }
    ensures steps { steps.new ≤ steps.old + entry_count (old_entries dictionary.now) + 8 }
{
    let mark = mark_of(tables, records);
    let done = add_incoming(tables, records, alloc, dictionary, incoming, steps);
    kept_or_cut_back(tables, records, mark, done)
}

// The same. After an error what was there still stands in front.
fn add_incoming<S: BuildHasher + Drop, L: Ledger>(
    tables: &mut KeyTables<S>,
    records: &mut Records,
    alloc: Global,
    dictionary: &Dictionary<'_>,
    incoming: &Incoming<'_, '_>,
    steps: &mut Steps<L>,
) -> Result<(), BuildFault>
    requires stands { StandsForSome (contents tables.old records.old) }
    requires source { IsSource dictionary.now }
    requires parts { IsPart (records_of resource_profiles) dictionary.now (coming incoming.now, tt) }
    requires fits { Fits envelope (message_with (coming incoming.now) dictionary.now) }
    ensures ok { OnOk result (StandsForPlaced (joining_of incoming.now) (contents tables.old records.old) (contents tables.new records.new) (message_with (coming incoming.now) dictionary.now)) }
    ensures fault { IfErr result (IsFaultOfPlaced message_limit (joining_of incoming.now) (contents tables.old records.old) (message_with (coming incoming.now) dictionary.now)) }
    ensures grown { GoesOn (contents tables.old records.old) (contents tables.new records.new) }
    ensures steps { steps.new ≤ steps.old + entry_count (old_entries dictionary.now) + 8 }
{
    let memo = Memo::none(alloc, dictionary)?;
    let mut walk = Walk::begin(dictionary, tables.take(alloc), memo);
    let done = put_incoming(
        &mut walk,
        records,
        alloc,
        incoming,
        KnownHeads::None,
        MESSAGE_LIMIT,
        steps,
    );
    *tables = walk.into_tables();
    done
}

/// Makes the indexes of what comes known, measures what is added with its new indexes, and puts it at the end, unless with it the
/// whole has more bytes than the limit. The walk may have gone over other parts of the message before. Heads of a profile that are
/// known to be the last ones are not compared.
///
/// # Errors
///
/// `OutputLimit` where the whole would have more bytes than the limit, with their number; or out of memory. What was there is still
/// in front, and the walk may know more entries.
pub fn put_incoming<S: BuildHasher + Drop, L: Ledger>(
    walk: &mut Walk<'_, '_, S>,
    records: &mut Records,
    alloc: Global,
    incoming: &Incoming<'_, '_>,
    known: KnownHeads,
    limit: u64,
    steps: &mut Steps<L>,
) -> Result<(), BuildFault>
    requires part { IsPart (records_of resource_profiles) walk.old.source (coming incoming.now, tt) }
    requires known { AreKnown known records.old (coming incoming.now) }
    requires limit { limit ≤ message_limit }
    ensures moves { Moves resource_profiles (missed result) walk.old walk.new steps.old steps.new }
    ensures ok { OnOk result (AreRenumbered (joining_of incoming.now) walk.old walk.new records.old records.new (coming incoming.now)) }
    ensures small { OnOk result (size_with (joining_of incoming.now) walk.new records.old (coming incoming.now) ≤ limit) }
    ensures fault { IfErr result (IsRefused limit (joining_of incoming.now) walk.old walk.new records.old (coming incoming.now)) }
    ensures front { IsPrefix records.old records.new }
{
    walk_over(walk, alloc, incoming, steps)?;
    put_walked(records, incoming, known, limit, &*walk)
}

// Measures what is left of what was walked over, and puts it at the end.
fn put_walked<S: BuildHasher + Drop>(
    records: &mut Records,
    incoming: &Incoming<'_, '_>,
    known: KnownHeads,
    limit: u64,
    walk: &Walk<'_, '_, S>,
) -> Result<(), BuildFault>
    requires part { IsPart (records_of resource_profiles) walk.now.source (coming incoming.now, tt) }
    requires known { AreKnown known records.old (coming incoming.now) }
    requires limit { limit ≤ message_limit }
    ensures ok { OnOk result (records.new ≡ records.old ++ left_parts (joining_of incoming.now) records.old (moved_parts walk.now (coming incoming.now))) }
    ensures small { OnOk result (size_with (joining_of incoming.now) walk.now records.old (coming incoming.now) ≤ limit) }
    ensures fault { IfErr result (IsTooLong limit (joining_of incoming.now) walk.now records.old (coming incoming.now)) }
    ensures front { IsPrefix records.old records.new }
{
    let tables = walk.tables();
    let added = left_of(records, incoming, known, walk)?;
    match measured(tables, records, &added, limit, walk) {
        Ok(room) => {
            put_in_room(records, room, &added, walk)?;
            Ok(())
        }
        Err(fault) => Err(fault),
    }
}

// Takes memory for so many bytes at once, and puts what is added at the end.
fn put_in_room<I: NewIndexes>(
    records: &mut Records,
    room: usize,
    added: &Added<'_, '_>,
    indexes: &I,
) -> Result<(), NoMemory>
    requires { AreShorter (2 ^ 62) (added_moved (I.to indexes.now) added.now) }
    ensures ok { OnOk result (records.new ≡ records.old ++ added_moved (I.to indexes.now) added.now) }
    ensures front { IsPrefix records.old records.new }
{
    records.reserve(room)?;
    put_added(records, added, indexes)?;
    Ok(())
}

// Refuses what is added if with it the whole has more bytes than the limit. Gives the bytes that its text takes, for which room is
// made; no contract depends on this number.
fn measured<S: BuildHasher + Drop, I: NewIndexes>(
    tables: &KeyTables<S>,
    records: &Records,
    added: &Added<'_, '_>,
    limit: u64,
    indexes: &I,
) -> Result<usize, BuildFault>
    requires { AreShorter (2 ^ 63) (added_moved (I.to indexes.now) added.now) }
    ensures small { OnOk result (length (whole_text (contents tables.now (records.now ++ added_moved (I.to indexes.now) added.now))) ≤ limit) }
    ensures fault { IfErr result (IsLimitOf limit (contents tables.now (records.now ++ added_moved (I.to indexes.now) added.now))) }
{
    let sums = with_added(records.totals(), added, indexes)?;
    let total = sums.total();
    let size = whole_len(tables, total);
    if size > limit {
        return Err(BuildFault::OutputLimit { size });
    }
    Ok((total - records.text_len()) as usize)
}
