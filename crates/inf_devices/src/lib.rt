//! The files of sources: the interface of a reader of named sources, and a reader over memory. The devices that take bytes.
#![tactic(auto)]

pub mod failures;
pub mod files;
pub mod given_bytes;
pub mod memory_files;
pub mod memory_sink;
pub mod opened_names;
pub mod sinks;
