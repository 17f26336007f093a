//! Laws of statements that print and that change objects: their code does what is described of them. Each function's
//! contract is a law; its body does nothing.
#![tactic(auto)]

pub mod laws;
