//! The reader: takes the tokens of a source one by one by the grammar's table, and makes messages and routines of them. The units of a
//! source: the actions of the grammar gather the parts of a unit, and at its end it makes code and messages.
#![tactic(auto)]

pub mod acting;
pub mod directives;
pub mod headers;
mod laws;
pub mod progress;
pub mod reader;
pub mod recovery;
mod tokens;

pub use laws::pieces_begin;
