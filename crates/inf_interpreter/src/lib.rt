//! An interpreter of the items of a routine, by the Z-Machine Standard 1.1, and claims about what code does when it
//! is run. A function's contract is a law; its body does nothing.
#![tactic(auto)]

pub mod laws;
