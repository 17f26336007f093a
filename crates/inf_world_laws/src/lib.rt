//! Laws of objects and classes: the definitions of the tables agree with a description by lists of declarations. Each
//! function's contract is one or more laws; its body does nothing.
#![tactic(auto)]

pub mod laws;
