//! Tests of a session: the messages, the bytes read and the counts behind each step, and calls that read a text by itself with their
//! answers and the bytes of the code.
#![tactic(auto)]

#[cfg(test)]
mod courses;
#[cfg(test)]
mod given;
#[cfg(test)]
mod limits;
#[cfg(test)]
mod losing;
#[cfg(test)]
mod playing;
#[cfg(test)]
mod sessions;
#[cfg(test)]
mod steps;
