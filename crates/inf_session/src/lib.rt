//! The reading of a source and of the files that it includes.
#![tactic(auto)]

mod rooms;
pub mod session;
pub mod setup;
mod steps;
mod tokens;
mod veneer;
