//! The compiler: `compile` reads a source and the files that it includes by a reader of files, and writes its messages and its story to two
//! devices. The outcome of a main source with the files that it includes, and `translate`, which gives it.
#![tactic(auto)]

pub mod compile;
pub mod heads;
mod laws;
pub mod translation;

pub use inf_ending::compiled::Status;
pub use inf_ending::faults::Fault;
pub use inf_names::hashing::NameHashing;
pub use laws::{outcomes_are_unique, sources_have_outcomes, sources_have_these_outcomes};
