//! One profile of a message, added to a draft.
ghost use Rattle.std.specs.Prelude.{◌≡◌, ◌+◌, ◌≤◌, IfErr, OnOk, OnErr};
ghost use Rattle.meaning.specs.Message.{tables_in};
ghost use Rattle.otlp_msg.specs.Checked.{value_of};
ghost use Rattle.otlp_msg.specs.Message.{message_limit, records_of};
ghost use Rattle.renumber.specs.Entries.{entry_count};
ghost use Rattle.draft_contents.specs.Contents.{contents};
ghost use Rattle.draft_contents.specs.Draft.{IsFaultOfPlaced, StandsForPlaced, StandsForSome};
ghost use Rattle.draft_contents.specs.Marks.{GoesOn};
ghost use Rattle.draft_contents.specs.Singles.{IsPosition, alone};

use crate::adding::add_within_limit;
use crate::fault::BuildFault;
use crate::incoming::{Incoming, Joining};
use crate::single::single_at;
use draft_records::Records;
use key_tables::KeyTables;
use otlp_msg::{Checked, ProfilePos};
use std::alloc::Global;
use std::hash::BuildHasher;
use std::sync::ledger::Ledger;
use tables::Steps;

/// Adds the profile at a position of a message, unless the whole would be longer than a message may be. After an error all is as
/// before.
pub fn add_profile_at<S: BuildHasher + Drop, L: Ledger>(
    tables: &mut KeyTables<S>,
    records: &mut Records,
    alloc: Global,
    message: &Checked<'_>,
    pos: ProfilePos,
    joining: Joining,
    steps: &mut Steps<L>,
) -> Result<(), BuildFault>
    requires stands { StandsForSome (contents tables.old records.old) }
    requires position { IsPosition (records_of (value_of message.now)) pos }
    ensures ok { OnOk result (StandsForPlaced joining (contents tables.old records.old) (contents tables.new records.new) (alone (value_of message.now) pos)) }
    ensures fault { IfErr result (IsFaultOfPlaced message_limit joining (contents tables.old records.old) (alone (value_of message.now) pos)) }
    ensures same { OnErr result (contents tables.new records.new ≡ contents tables.old records.old) }
    ensures grown { GoesOn (contents tables.old records.old) (contents tables.new records.new) }
    ensures steps { steps.new ≤ steps.old + entry_count (tables_in (value_of message.now).1.0) + 8 }
{
    let found = message.message();
    let single = single_at(found.records.as_slice(), pos);
    let incoming = Incoming::Profile(single, joining);
    add_within_limit(tables, records, alloc, &found.dictionary, &incoming, steps)
}
