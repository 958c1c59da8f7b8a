//! The output of bytes that were built.
ghost use Rattle.std.specs.Prelude.{◌≡◌, [], ◌∷◌, ℕ, List, Result, IfOk, IfErr};
ghost use Rattle.draft_contents.specs.declared.fault.BuildFault.{BuildFault as Fault};
ghost use Rattle.split_merge.specs.Canonical.{Meaning, IsAcceptedAs, IsBuildFault, IsOnlyOf};
ghost use Rattle.collector.specs.Delivery.{names_of};
ghost use Rattle.collector.specs.Outputs.{IsBuilt, built_file, one_file};
ghost use Rattle.collector.specs.Rebuilt.{IsRebuilt};
ghost use Rattle.collector.specs.RunSteps.{IsComputed};

use crate::lines::wrote_line;
use crate::{Output, Stop, Writes};
use dict_build::BuildFault;
use pb_wire::{Blob, NoMemory, Text};
use std::alloc::Global;

/// One file, `target`, of the bytes that were built.
///
/// # Errors
///
/// The stop at the fault in their place; or out of memory.
pub fn output_of_built(
    alloc: Global,
    target: &Text,
    built: Result<Blob, BuildFault>,
) -> Result<Output, Stop>
    ensures computed { (want : Result (List ℕ) Fault) → IsBuilt want built → IsComputed (built_file target.now want) result }
    ensures rebuilt { (ms : Meaning) → IfOk built (λ b. IsAcceptedAs b ms) → IfOk built (λ b. IsOnlyOf b ms) → IfOk result (IsRebuilt ms target.now) }
    ensures targets { IfOk result (λ output. names_of output.files ≡ target.now ∷ []) }
{
    match built {
        Ok(bytes) => Ok(output_of_one(alloc, target, bytes)?),
        Err(fault) => Err(fault.into()),
    }
}

// One file, and the line that it was written.
fn output_of_one(alloc: Global, target: &Text, bytes: Blob) -> Result<Output, NoMemory>
    ensures { IfOk result (λ output. output ≡ one_file target.now bytes) }
{
    let lines = wrote_line(alloc, target.as_str(), bytes.len())?;
    let mut files = Writes::begin(alloc);
    files.add((Text::copy_of(alloc, target.as_str())?, bytes))?;
    Ok(Output { files, lines })
}
