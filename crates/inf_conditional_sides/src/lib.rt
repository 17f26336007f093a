//! Conditionals as sides that stay or are left out, with no states in which a directive waits for something. A function
//! carries as its clause that each token has the same result as in the definitions that the contracts of the compiler
//! cite, and does nothing.
#![tactic(auto)]

mod laws;

pub use laws::{
    conditions_are_told, directives_choose_sides, ends_are_told_by_sides, sides_are_judged,
    sides_keep_tokens, tokens_go_by_sides, tokens_rest,
};
