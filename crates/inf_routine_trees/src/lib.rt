//! Statements and routines of a source as trees, and the effects of these trees as a whole. Each function carries a law as its
//! clause, and does nothing.
#![tactic(auto)]

mod laws;

pub use laws::{bodies_are_laid_as_trees, routines_are_trees, statements_are_laid_as_trees};
