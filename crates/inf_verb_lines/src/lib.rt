//! The directives `Verb` and `Extend`, and the lines of verbs.
#![tactic(auto)]

pub mod lines;
pub mod long_headers;
pub mod verbs;
