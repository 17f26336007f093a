//! Devices of the tests of the compiler.
#![tactic(auto)]

pub mod devices;
