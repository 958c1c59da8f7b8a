//! The outside of the programs: files, what is read, what is written and hashers, as traits. Each has an object in
//! memory, which tells all that it holds. Files, sinks and sources have an adapter over the system too, which tells how
//! often it has failed and nothing else.
#![tactic(auto)]

mod disk_files;
mod failures;
mod fault;
mod files;
mod mem_files;
mod mem_sink;
mod mem_source;
mod reader_source;
mod seeds;
mod sink;
mod source;
mod system_seeds;
mod writer_sink;

pub use disk_files::DiskFiles;
pub use failures::Failures;
pub use fault::{Failed, IoFault};
pub use files::{Files, Got};
pub use mem_files::MemFiles;
pub use mem_sink::MemSink;
pub use mem_source::MemSource;
pub use reader_source::ReaderSource;
pub use seeds::{FixedSeeds, Seeds};
pub use sink::{Sink, put_all};
pub use source::Source;
pub use system_seeds::{SystemHasher, SystemSeeds};
pub use writer_sink::WriterSink;
