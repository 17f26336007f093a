//! Laws of the effects that the code of expressions has when a machine runs it. Each function's contract is one or more
//! laws; its body does nothing.
#![tactic(auto)]

pub mod laws;
