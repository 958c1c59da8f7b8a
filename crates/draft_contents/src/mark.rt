//! Marks of drafts, and going back to them.
ghost use Rattle.std.specs.Prelude.{◌≡◌, OnOk, OnErr};
ghost use Rattle.draft_contents.specs.Contents.{contents};
ghost use Rattle.draft_contents.specs.Draft.{StandsForSome};
ghost use Rattle.draft_contents.specs.Marks.{CanBeCutTo, IsMark, cut_to};

use crate::fault::BuildFault;
use draft_records::{Records, RecordsMark};
use key_tables::{KeyTables, KeyTablesMark};
use std::hash::BuildHasher;

/// How much a draft held, for `back_to`. It holds none of it.
#[derive(Clone, Copy, Debug)]
pub struct DraftMark {
    pub keys: KeyTablesMark,
    pub records: RecordsMark,
}

/// A mark of tables and records. It takes no memory.
pub fn mark_of<S: BuildHasher + Drop>(tables: &KeyTables<S>, records: &Records) -> DraftMark
    requires { StandsForSome (contents tables.now records.now) }
    ensures { IsMark result (contents tables.now records.now) }
{
    DraftMark {
        keys: tables.mark(),
        records: records.mark(),
    }
}

/// Drops what came after the mark. It takes no memory.
pub fn cut_back<S: BuildHasher + Drop>(
    tables: &mut KeyTables<S>,
    records: &mut Records,
    mark: DraftMark,
)
    requires { CanBeCutTo mark (contents tables.old records.old) }
    ensures { contents tables.new records.new ≡ cut_to mark (contents tables.old records.old) }
{
    tables.back_to(mark.keys);
    records.back_to(mark.records);
}

/// The end of each add: what it put stays if all went well, and else the tables and the records go back to the mark.
pub fn kept_or_cut_back<S: BuildHasher + Drop>(
    tables: &mut KeyTables<S>,
    records: &mut Records,
    mark: DraftMark,
    added: Result<(), BuildFault>,
) -> Result<(), BuildFault>
    requires { CanBeCutTo mark (contents tables.old records.old) }
    ensures answer { result ≡ added }
    ensures kept { OnOk result (contents tables.new records.new ≡ contents tables.old records.old) }
    ensures cut { OnErr result (contents tables.new records.new ≡ cut_to mark (contents tables.old records.old)) }
{
    match added {
        Ok(()) => Ok(()),
        Err(fault) => {
            cut_back(tables, records, mark);
            Err(fault)
        }
    }
}
