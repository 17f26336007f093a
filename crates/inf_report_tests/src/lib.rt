//! Tests of the messages: worked lines, and sinks that fail.
#![tactic(auto)]

#[cfg(test)]
mod expecting;
#[cfg(test)]
mod lines;
