//! The report of a compilation: messages only grow. Functions carry its laws as their clauses, and do nothing.
#![tactic(auto)]

mod laws;

pub use laws::{messages_grow, reports_go_on};
