//! The command line.
use crate::fault::CaseFault;
use commands::{Texts, ToolPlan, plan};
use std::alloc::{AllocError, Global};

/// What a command line asks for, each word that is taken in brackets, or why it is refused.
pub fn told(alloc: Global, data: &str) -> Result<String, CaseFault> {
    match plan(alloc, &words_of(alloc, data)?) {
        Ok(plan) => Ok(plan_told(alloc, &plan)?),
        Err(refusal) => Ok(format!(in alloc; "{refusal}")?),
    }
}

/// The words of a text. `""` is the empty word.
pub fn words_of(alloc: Global, data: &str) -> Result<Vec<String>, AllocError> {
    let mut words = Vec::new(alloc);
    for word in data.split_whitespace() {
        let word = if word == "\"\"" { "" } else { word };
        words.push(String::from_str(alloc, word)?)?;
    }
    Ok(words)
}

fn plan_told(alloc: Global, plan: &ToolPlan) -> Result<String, AllocError> {
    match plan {
        ToolPlan::Check { files } => files_told(alloc, "check", files),
        ToolPlan::Show { file } => format!(in alloc; "show [{}]", file.as_str()),
        ToolPlan::Canon { file, target } => {
            format!(in alloc; "canon [{}] to [{}]", file.as_str(), target.as_str())
        }
        ToolPlan::Merge { target, files } => {
            let told = files_told(alloc, "merge", files)?;
            format!(in alloc; "{told} to [{}]", target.as_str())
        }
        ToolPlan::Split {
            limit,
            prefix,
            files,
        } => {
            let told = files_told(alloc, "split", files)?;
            let limit = limit.bytes();
            format!(in alloc; "{told} to [{}] at {limit}", prefix.as_str())
        }
    }
}

// A command and the files that it takes.
fn files_told(alloc: Global, command: &str, files: &Texts) -> Result<String, AllocError> {
    let mut told = String::from_str(alloc, command)?;
    for file in files.as_slice() {
        told.push_str(format!(in alloc; " [{}]", file.as_str())?.as_str())?;
    }
    Ok(told)
}
