//! Names that directives declare, and the values of units.
#![tactic(auto)]

pub mod declarations;
pub mod values;
