//! Calls that read a text of a source by itself: an expression, a condition, a constant, a line of assembly or a routine.
#![tactic(auto)]

mod calls;
pub mod cx;
pub mod faults;
mod reading;
mod units;
