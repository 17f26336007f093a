//! Laws of the labels of expressions: the labels that their code marks, and the effect of the code in a program that
//! looks them up. Each function's contract is one or more laws; its body does nothing.
#![tactic(auto)]

pub mod laws;
