//! The code of expressions and of statements by the pieces that it is made of, so that a law of code has to be shown of the
//! pieces alone. Its function's contract is a law; its body does nothing.
#![tactic(auto)]

pub mod laws;
