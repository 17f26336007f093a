//! Laws about the definitions of routines that the contracts of the assembler cite. Each function's contract is one or
//! more laws; its body does nothing.
#![tactic(auto)]

pub mod laws;
