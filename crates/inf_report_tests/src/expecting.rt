//! Assertions of the values that are found.
use std::fmt::Debug;
use std::process::Abort;

/// Asserts that the value found for a row is the one that is wanted.
pub(crate) fn expect<T: Debug + PartialEq>(
    rt: &impl Abort,
    row: &impl Debug,
    found: &T,
    wanted: &T,
) {
    assert_eq!(rt; *found, *wanted, "{row:?}");
}
