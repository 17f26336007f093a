//! Worked stories: all their bytes, by evaluation of the definitions. Each function's contract is one or more laws; its body
//! does nothing.
#![tactic(auto)]

pub mod laws;
