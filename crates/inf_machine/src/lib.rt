//! A machine that reads tokens by a grammar in which one token decides, whatever its rules and actions are.
//!
//! `specs/` has a grammar as a table of rows and its texts (`Grammar`), the machine as functions on lists (`Machine`), the property of a
//! table by which one token decides (`Decided`), and the laws that follow from it (`Laws`). The code has the parts of rows (`Symbol`), the
//! stack of symbols that are still to be read (`Rest`), what was met of the rules so far (`Openings`), a machine that has both (`Machine`),
//! the table that it reads by (`Table`), and the laws as functions. A crate with a table has the machine that reads by it.
#![tactic(auto)]

mod laws;
mod machine;
mod opening;
mod openings;
mod reading;
mod rest;
mod stack;
mod steps;
mod symbols;
mod table;

pub use laws::{bad_tokens, pieces, sources, texts};
pub use machine::Machine;
pub use openings::Openings;
pub use rest::Rest;
pub use symbols::Symbol;
pub use table::Table;
