//! The end of an expression or a constant that is read by itself: its code or its value, or the least that is wrong with it.
#![tactic(auto)]

pub mod ending;
