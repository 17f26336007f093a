//! Laws on the meaning of the language's definitions, in the language's own words. Each function carries a law as its
//! clauses, and does nothing.
#![tactic(auto)]

mod laws;

pub use laws::{
    bad_pieces_are_skipped, bad_tokens_are_told, first_declarations_count, first_errors_are_told,
    kept_tokens_are_read, least_findings_are_told, limits_count_the_story, parts_are_pieces,
    undeclared_names_are_told_once, units_keep_within_settings,
};
