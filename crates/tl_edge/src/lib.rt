//! What tlua asks of the world outside: files, a source of input and a sink for output, each with an object in memory
//! that never fails and one that fails at chosen calls.
#![tactic(auto)]

mod calls;
mod errors;
mod files_in_memory;
mod outside;
mod rest;
mod sink_in_memory;
mod source_in_memory;

pub use files_in_memory::{MemFiles, SureFiles};
pub use outside::{Failed, FileBytes, Files, FilesError, Found, Sink, SinkError, Source};
pub use sink_in_memory::{MemSink, SureSink};
pub use source_in_memory::{MemSource, SureSource};

#[cfg(test)]
mod tests;
