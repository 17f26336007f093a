//! Laws of the units of objects, classes and verbs: each header, each entry of a body and each line is one operation of the
//! tables. Each function's contract is one or more laws; its body does nothing.
#![tactic(auto)]

pub mod laws;
