//! Laws of statements: those that hold others do what they mean, where the code of their parts does; and so do some
//! that hold none. A function's contract is a law; its body does nothing.
#![tactic(auto)]

pub mod laws;
