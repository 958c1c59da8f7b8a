//! Why a run ended without its output: the status, and the line on the standard error.
ghost use Rattle.std.specs.Prelude.{◌≡◌, ◌<◌, IfOk};
ghost use Rattle.collector.specs.Lines.{status_of, refusal_status, line_of, refusal_line, IsStatus};

use crate::lines::{file_line, limit_line, no_memory_line, read_line, words_line, write_line};
use commands::{WordReason, WordRefusal};
use dict_build::BuildFault;
use pb_wire::{NoMemory, Text};
use std::alloc::{AllocError, Global};
use thiserror::Error;

/// What the answer refuses. `line` is what the tool prints; the display is for logs.
#[derive(Debug, Drop, Error)]
pub enum ToolRefusal {
    /// The command line asks for nothing.
    #[error("word {place}: {reason:?}")]
    Words { place: u32, reason: WordReason },
    /// A file is missing, or it is no message; the text says why.
    #[error("{}: {}", .name.as_str(), .text.as_str())]
    File { name: Text, text: Text },
    /// The output would have this number of bytes, which is above its limit.
    #[error("output limit: {size} bytes")]
    Limit { size: u128 },
}

/// Why a run ended without its output. `line` is what the tool prints; the display is for logs.
#[derive(Debug, Drop, Error)]
pub enum Stop {
    /// The answer is a refusal.
    #[error("{0}")]
    Refused(ToolRefusal),
    /// A file could not be read.
    #[error("read failed: {}", .name.as_str())]
    Read { name: Text },
    /// A file, or the standard output, could not be written.
    #[error("write failed: {}", .name.as_str())]
    Write { name: Text },
    #[error("no memory")]
    NoMemory,
}

impl From<NoMemory> for Stop {
    ghost use Rattle.std.specs.Prelude.{◌≡◌};
    ghost use Rattle.collector.specs.declared.stop.Stop.TheVariants as stop;

    ghost from_gives = { λ _ s. s ≡ stop.NoMemory };

    fn from(_: NoMemory) -> Stop {
        Stop::NoMemory
    }
}

impl From<AllocError> for Stop {
    ghost use Rattle.std.specs.Prelude.{◌≡◌};
    ghost use Rattle.collector.specs.declared.stop.Stop.TheVariants as stop;

    ghost from_gives = { λ _ s. s ≡ stop.NoMemory };

    fn from(_: AllocError) -> Stop {
        Stop::NoMemory
    }
}

impl From<WordRefusal> for Stop {
    ghost use Rattle.std.specs.Prelude.{◌≡◌};
    ghost use Rattle.collector.specs.Lines.{stop_of_words};

    ghost from_gives = { λ r s. s ≡ stop_of_words r };

    fn from(refusal: WordRefusal) -> Stop {
        match refusal {
            WordRefusal::Fault { place, reason } => {
                Stop::Refused(ToolRefusal::Words { place, reason })
            }
            WordRefusal::NoMemory => Stop::NoMemory,
        }
    }
}

impl From<BuildFault> for Stop {
    ghost use Rattle.std.specs.Prelude.{◌≡◌};
    ghost use Rattle.collector.specs.Outputs.{stop_of_fault};

    ghost from_gives = { λ f s. s ≡ stop_of_fault f };

    fn from(fault: BuildFault) -> Stop {
        match fault {
            BuildFault::OutputLimit { size } => Stop::Refused(ToolRefusal::Limit {
                size: size as u128,
            }),
            BuildFault::NoMemory => Stop::NoMemory,
        }
    }
}

impl ToolRefusal {
    /// The status of a run that was refused so.
    pub fn status(&self) -> u8
        ensures { result ≡ refusal_status self.now }
    {
        match self {
            ToolRefusal::Words { .. } => 1,
            ToolRefusal::File { .. } => 2,
            ToolRefusal::Limit { .. } => 5,
        }
    }

    /// The line on the standard error.
    pub fn line(&self, alloc: Global) -> Result<Text, NoMemory>
        ensures { IfOk result (λ line. line ≡ refusal_line self.now) }
    {
        match self {
            ToolRefusal::Words { place, reason } => words_line(alloc, *place, *reason),
            ToolRefusal::File { name, text } => file_line(alloc, name.as_str(), text.as_str()),
            ToolRefusal::Limit { size } => limit_line(alloc, *size),
        }
    }
}

impl Stop {
    /// The status of a run that ended so.
    pub fn status(&self) -> u8
        ensures status { result ≡ status_of self.now }
        ensures listed { IsStatus result }
        ensures stopped { 0 < result }
    {
        match self {
            Stop::Refused(refusal) => refusal.status(),
            Stop::Read { .. } => 6,
            Stop::NoMemory => 7,
            Stop::Write { .. } => 8,
        }
    }

    /// The line on the standard error.
    pub fn line(&self, alloc: Global) -> Result<Text, NoMemory>
        ensures { IfOk result (λ line. line ≡ line_of self.now) }
    {
        match self {
            Stop::Refused(refusal) => refusal.line(alloc),
            Stop::Read { name } => read_line(alloc, name.as_str()),
            Stop::Write { name } => write_line(alloc, name.as_str()),
            Stop::NoMemory => no_memory_line(alloc),
        }
    }
}
