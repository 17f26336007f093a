//! The messages of a compilation, all in one table, and the report that writes their lines.
#![tactic(auto)]

mod lines;
pub mod messages;
pub mod own_words;
mod pieces;
pub mod report;
mod wordings;
