//! The canonical bytes of a message.
ghost use Rattle.std.specs.Prelude.{◌≡◌, ◌<◌, Ok, IfOk, IfErr};
ghost use Rattle.otlp_msg.specs.Checked.{value_of};
ghost use Rattle.split_merge.specs.Canonical.{meaning, canon_of, IsAcceptedAs, IsBuildFault, IsOnlyOf};

use dict_build::{BuildFault, Draft};
use otlp_msg::Checked;
use outside::Seeds;
use pb_wire::Blob;
use std::alloc::Global;
use std::marker::Brand;
use std::sync::ledger::{Blank, Ledger};
use tables::Steps;

/// The canonical bytes of a message: its records with their new indexes, and the tables that these point into.
///
/// # Errors
///
/// `OutputLimit` where they are more than a message may have, with their number; or out of memory.
pub fn canon<M: Seeds>(
    alloc: Global,
    message: &Checked<'_>,
    seeds: &mut M,
) -> Result<Blob, BuildFault>
    ensures ok { IfOk result (λ b. canon_of (value_of message.now) ≡ Ok b) }
    ensures refused { IfErr result (IsBuildFault (canon_of (value_of message.now))) }

    // What is written is accepted, with the same meaning, and no other meaning that can be written has these bytes.
    ensures accepted { IfOk result (λ b. IsAcceptedAs b (meaning (value_of message.now))) }
    ensures unique { IfOk result (λ b. IsOnlyOf b (meaning (value_of message.now))) }
{
    canon_with::<M, Brand>(alloc, message, seeds, Blank::new(1))
}

// The same with a counter of steps over this ledger.
fn canon_with<M: Seeds, L: Ledger>(
    alloc: Global,
    message: &Checked<'_>,
    seeds: &mut M,
    blank: Blank,
) -> Result<Blob, BuildFault>
    requires name { blank.name ≡ L.name }
    requires parts { blank.parts ≡ L.parts }
    requires some { 0 < blank.parts }
    ensures ok { IfOk result (λ b. canon_of (value_of message.now) ≡ Ok b) }
    ensures refused { IfErr result (IsBuildFault (canon_of (value_of message.now))) }
    ensures accepted { IfOk result (λ b. IsAcceptedAs b (meaning (value_of message.now))) }
    ensures unique { IfOk result (λ b. IsOnlyOf b (meaning (value_of message.now))) }
{
    let mut steps = Steps::<L>::begin(blank);
    let mut draft = Draft::begin(alloc, seeds)?;
    if let Err(fault) = draft.add_message(alloc, message, &mut steps) {
        return Err(fault);
    }
    match draft.finish() {
        Ok(bytes) => Ok(bytes),
        Err((_, stop)) => Err(stop.into()),
    }
}
