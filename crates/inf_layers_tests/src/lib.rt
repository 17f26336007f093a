//! Tests of the system's files, of sinks that take little, and of dates.
#![tactic(auto)]

#[cfg(test)]
mod dates;
#[cfg(test)]
mod disk;
#[cfg(test)]
mod expecting;
#[cfg(test)]
mod sinks;
