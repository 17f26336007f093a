//! Laws of verbs and words: the definitions of the tables agree with a description by lists of what a source says. Each
//! function's contract is one or more laws; its body does nothing.
#![tactic(auto)]

pub mod laws;
