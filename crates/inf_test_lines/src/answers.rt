//! Answers in words.
use std::alloc::{AllocError, Global};
use std::fmt::{Debug, Display};

/// Returns a value as it is shown.
pub fn shown<T: Display>(alloc: Global, value: &T) -> Result<String, AllocError> {
    format!(in alloc; "{value}")
}

/// Returns a value as its code spells it.
pub fn debugged<T: Debug>(alloc: Global, value: &T) -> Result<String, AllocError> {
    format!(in alloc; "{value:?}")
}

/// Returns the value of an outcome, or its fault.
pub fn outcome<T: Display, E: Debug>(
    alloc: Global,
    outcome: &Result<T, E>,
) -> Result<String, AllocError> {
    match outcome {
        Ok(value) => shown(alloc, value),
        Err(fault) => debugged(alloc, fault),
    }
}

/// Returns `ok`, or the fault of an outcome.
pub fn done<E: Debug>(alloc: Global, outcome: &Result<(), E>) -> Result<String, AllocError> {
    match outcome {
        Ok(()) => String::from_str(alloc, "ok"),
        Err(fault) => debugged(alloc, fault),
    }
}

/// Returns one answer, or both where they are not the same.
pub fn one_or_both(alloc: Global, flat: String, paged: String) -> Result<String, AllocError> {
    if flat.as_str() == paged.as_str() {
        Ok(flat)
    } else {
        format!(in alloc; "{flat}, and in pages {paged}")
    }
}
