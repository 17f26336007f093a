//! Laws of directives that declare names: the definitions of the compiler agree with a description by the list of the
//! directives. Each function's contract is one or more laws; its body does nothing.
#![tactic(auto)]

pub mod laws;
