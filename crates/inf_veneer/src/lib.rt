//! The routines that the compiler supplies where a source uses them and has none of its own.
#![tactic(auto)]

pub mod laws;
mod texts;

pub use texts::{COUNT, veneer, veneer_name};
