//! Laws of spelling: a source has gaps and tokens in one way, by its bytes alone, and they are those of the scanner. Each
//! function's contract is one or more laws; its body does nothing.
#![tactic(auto)]

pub mod laws;
