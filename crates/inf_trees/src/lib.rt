//! The units of a source as trees, and the effects of these trees as a whole: of directives and of statements that are one
//! unit. Each function carries a law as its clause, and does nothing.
#![tactic(auto)]

mod laws;

pub use laws::{bracketed_units_are_trees, directives_are_trees, statements_are_trees};
