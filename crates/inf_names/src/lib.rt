//! The names of a compilation: those that the language has from the start, one map of those that a source declares or uses, the locals of
//! a routine, names of which nothing is known but that they were given, and names as a source spells them.
#![tactic(auto)]

pub mod hashing;
mod keys;
pub mod locals;
pub mod meanings;
pub mod name_sets;
pub mod spellings;
pub mod symbols;
pub mod system_names;
