//! All that was compiled so far, and the routines and statements that are added to it.
#![tactic(auto)]

pub mod compilation;
pub mod constants;
pub mod context;
pub mod crowds;
pub mod findings;
pub mod routines;
pub mod units;
