//! What a plan comes to: its output is computed, and written.
ghost use Rattle.collector.specs.Carrying.{IsCarried};

use crate::Stop;
use crate::canon_command::perform_canon;
use crate::check_command::perform_check;
use crate::deliver::write_performed;
use crate::merge_command::perform_merge;
use crate::show_command::carry_show;
use crate::split_command::perform_split;
use commands::ToolPlan;
use outside::{Files, Seeds, Sink};
use std::alloc::Global;

/// Carries out a plan. Nothing is written before the output is there; of `show` alone the text is written as it is found.
pub fn carry<F: Files, O: Sink, M: Seeds>(
    alloc: Global,
    plan: &ToolPlan,
    files: &mut F,
    out: &mut O,
    seeds: &mut M,
) -> Result<(), Stop>
    ensures { IsCarried F.Files O.Sink files.old files.new out.old out.new plan.now result }
{
    match plan {
        ToolPlan::Check { files: names } => {
            write_performed(alloc, perform_check(alloc, names, files), files, out)
        }
        ToolPlan::Show { file } => carry_show(alloc, file, files, out),
        ToolPlan::Canon { file, target } => {
            write_performed(
                alloc,
                perform_canon(alloc, file, target, files, seeds),
                files,
                out,
            )
        }
        ToolPlan::Merge {
            target,
            files: names,
        } => write_performed(
            alloc,
            perform_merge(alloc, target, names, files, seeds),
            files,
            out,
        ),
        ToolPlan::Split {
            limit,
            prefix,
            files: names,
        } => write_performed(
            alloc,
            perform_split(alloc, *limit, prefix, names, files, seeds),
            files,
            out,
        ),
    }
}
