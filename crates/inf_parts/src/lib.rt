//! The units of a routine that have expressions: what is wrong with them, their code and their end.
#![tactic(auto)]

pub mod parts;
