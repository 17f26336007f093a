//! Tests of the compiler, over sources, files that include one another, and devices in memory.
#![tactic(auto)]

#[cfg(test)]
mod conditionals;
#[cfg(test)]
mod fault_rows;
#[cfg(test)]
mod faults;
#[cfg(test)]
mod including;
#[cfg(test)]
mod reading;
#[cfg(test)]
mod replacing;
#[cfg(test)]
mod sources;
#[cfg(test)]
mod stories;
#[cfg(test)]
mod trials;
