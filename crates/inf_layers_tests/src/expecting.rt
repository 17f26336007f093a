//! Assertions of the values that the rows of a table want.
use std::fmt::Debug;
use std::process::Abort;

/// Asserts that the value found for a row is the wanted one.
pub(crate) fn expect<T: Debug + PartialEq>(
    rt: &impl Abort,
    row: &impl Debug,
    found: &T,
    wanted: &T,
) {
    assert_eq!(rt; *found, *wanted, "{row:?}");
}
