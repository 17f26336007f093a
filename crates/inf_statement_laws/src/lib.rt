//! Laws of whole statements, by the definitions that the contracts of the compiler cite. Each function carries a law as its
//! clauses, and does nothing.
#![tactic(auto)]

mod laws;

pub use laws::{
    closing_ahead_is_closing, routines_are_laid_whole, routines_are_read_whole,
    statements_are_laid_whole, statements_leave_what_is_open, tokens_happen, units_keep_labels,
};
