//! Laws of known numbers: the number that takes the place of an operator is computed as a machine would, and as integers
//! are. Each function's contract is one or more laws; its body does nothing.
#![tactic(auto)]

pub mod laws;
