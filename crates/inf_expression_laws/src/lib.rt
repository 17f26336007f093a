//! Laws of expressions: the actions of the grammar gather of a text the one expression that the text is, by the levels at
//! which operators bind. Each function's contract is one or more laws; its body does nothing.
#![tactic(auto)]

pub mod laws;
