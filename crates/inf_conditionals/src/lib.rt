//! The conditionals of a source: they decide which tokens are kept, and a conditional without its other end is reported.
//!
//! They are between the lexers and the machine of the grammar, which sees kept tokens alone. Designer's Manual, fourth edition, section 38.
#![tactic(auto)]

mod asking;
pub mod condition;
pub mod conditionals;
mod effects;
pub mod ends;
pub mod filtered;
pub mod open;
mod open_conditions;
mod operands;
mod packed;
pub mod pending;
pub mod said;
mod truth;
mod values;
pub mod words;
