//! The statements of a routine that hold others: which are open, with their labels, and the tests of their cases; and the labels with
//! names.
#![tactic(auto)]

mod cases;
pub mod constructs;
pub mod labels;
mod loops;
mod questions;

pub use cases::{SWITCHED, lay_case};
