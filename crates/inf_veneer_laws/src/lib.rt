//! Laws of the texts of supplied routines: calls of their statements meet the contracts by which expressions call them.
//! Each function's contract is one or more laws; its body does nothing.
#![tactic(auto)]

pub mod laws;
