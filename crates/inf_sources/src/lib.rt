//! The files that are open, one inside the other, and the tokens of the innermost.
#![tactic(auto)]

mod faults;
pub mod open_file;
pub mod open_files;

pub use faults::IncludeFault;
