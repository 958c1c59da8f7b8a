//! What comes to a draft.
ghost use Rattle.std.specs.Prelude.{◌≡◌, OnOk};
ghost use Rattle.schema.specs.Messages.{resource_profiles};
ghost use Rattle.meaning.specs.Canonical.{records as records_of};
ghost use Rattle.renumber.specs.Entries.{IsPart};
ghost use Rattle.renumber.specs.Walk.{Moves, WalkedEach, missed};
ghost use Rattle.draft_contents.specs.Singles.{coming, joining_if};

use crate::single::Single;
use pb_wire::NoMemory;
use prof_rec::ResourceProfiles;
use renumber::{Meets, Walk};
use std::alloc::Global;
use std::hash::BuildHasher;
use std::sync::ledger::Ledger;
use tables::Steps;

/// Which heads of records that come to a draft are left out.
#[derive(Clone, Copy, Debug, PartialEq, Eq)]
pub enum Joining {
    /// None: a resource record begins.
    Resource,
    /// That of the first resource record, if it repeats the last one: scope records come under the last resource record.
    Scope,
    /// The same, and then that of the first scope record, if it repeats the last one, too.
    Seam,
}

/// What comes to a draft: the records of a message, or one of its profiles.
#[derive(Clone, Copy)]
pub enum Incoming<'s, 'a> {
    Records(&'s [ResourceProfiles<'a>]),
    Profile(Single<'s, 'a>, Joining),
}

/// How a profile is added: it begins a resource record, or closes the seam.
pub fn joining_if(fresh: bool) -> Joining
    ensures { result ≡ joining_if fresh }
{
    if fresh {
        Joining::Resource
    } else {
        Joining::Seam
    }
}

/// Makes the indexes of what comes known. Those of a profile cost what it newly uses.
///
/// # Errors
///
/// Out of memory.
pub fn walk_over<S: BuildHasher + Drop, L: Ledger>(
    walk: &mut Walk<'_, '_, S>,
    alloc: Global,
    incoming: &Incoming<'_, '_>,
    steps: &mut Steps<L>,
) -> Result<(), NoMemory>
    requires { IsPart (records_of resource_profiles) walk.old.source (coming incoming.now, tt) }
    ensures moves { Moves resource_profiles (missed result) walk.old walk.new steps.old steps.new }
    ensures walked { OnOk result (WalkedEach resource_profiles walk.old walk.new (coming incoming.now)) }
{
    match *incoming {
        Incoming::Records(found) => walk.each(alloc, found, steps)?,
        Incoming::Profile(single, _) => single.profile.meet(alloc, walk, steps)?,
    }
    Ok(())
}
