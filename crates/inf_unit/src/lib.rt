//! The units of a source: their tokens, how they begin, their names, and the messages about them.
#![tactic(auto)]

pub mod crowds;
pub mod directives;
pub mod items;
pub mod kept;
pub mod kinds;
pub mod long_lines;
pub mod messages;
pub mod names;
mod opcodes;
pub mod roles;
pub mod steps;
pub mod texts;
pub mod tokens;
pub mod unit;
pub mod unit_tokens;
