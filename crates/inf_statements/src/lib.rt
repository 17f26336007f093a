//! The statements of a routine: the tokens by which they are known, the findings about them beside those about their
//! expressions, and their code.
//!
//! The statements that hold others are kept while they are open, each with its labels: these are the constructs of `inf_constructs`. In
//! `specs/` here, `Printing`, `Statements` and `Assembly` have the statements that hold none, and `Effects` puts all together.
#![tactic(auto)]

mod assembly;
pub mod effects;
mod printing;
pub mod statements;

pub use assembly::Ends;
