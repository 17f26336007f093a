//! Kinds of arrays, and the entries that fit in them.
ghost use Rattle.std.specs.Prelude.{◌≡◌, ◌<◌, ◌^◌, ◌≤◌, ◌*◌, length};
ghost use Rattle.inf_arrays.specs.Kinds.{are_bytes, count_size, entry_size, is_byte, is_of_bytes, laters, laters_of, misfit, misfit_by};

use crate::arrays::ArrayFault;
use inf_area::Value;

/// The kind of an array: the size of an entry, and whether the count of entries precedes them.
#[derive(Clone, Copy)]
pub enum ArrayKind {
    /// `->`: a byte each.
    Bytes,
    /// `-->`: two bytes each.
    Words,
    /// `string`: a byte each, behind their count in a byte.
    String,
    /// `table`: two bytes each, behind their count in two bytes.
    Table,
}

/// Returns whether a value is known and 0 to 255.
pub(crate) fn is_byte(value: Value) -> bool
    ensures { result ≡ is_byte value }
{
    match value {
        Value::Known(number) => number <= 255,
        Value::Later(_) => false,
    }
}

/// Returns whether all values are known and 0 to 255.
fn are_bytes(values: &[Value]) -> bool
    ensures { result ≡ are_bytes values.now }
{
    for value in values {
        if !is_byte(*value) {
            return false;
        }
    }
    true
}

/// Returns the number of values that are known later.
pub(crate) fn laters(values: &[Value]) -> usize
    ensures value { result ≡ laters values.now }
    ensures few { result ≤ length values.now }
{
    let mut count = 0;
    for value in values {
        if matches!(value, Value::Later(_)) {
            count += 1;
        }
    }
    count
}

impl ArrayKind {
    fn is_of_bytes(self) -> bool
        ensures { result ≡ is_of_bytes self }
    {
        matches!(self, ArrayKind::Bytes | ArrayKind::String)
    }

    pub(crate) fn entry_size(self) -> usize
        ensures { result ≡ entry_size self }
    {
        match self {
            ArrayKind::Bytes | ArrayKind::String => 1,
            ArrayKind::Words | ArrayKind::Table => 2,
        }
    }

    pub(crate) fn count_size(self) -> usize
        ensures { result ≡ count_size self }
    {
        match self {
            ArrayKind::Bytes | ArrayKind::Words => 0,
            ArrayKind::String => 1,
            ArrayKind::Table => 2,
        }
    }

    /// Returns the number of entries that are known later; none, where entries are bytes.
    pub(crate) fn laters(self, values: &[Value]) -> usize
        ensures value { result ≡ laters_of self values.now }
        ensures few { result ≤ entry_size self * length values.now }
    {
        if self.is_of_bytes() {
            return 0;
        }
        laters(values)
    }

    /// Returns the fault of `values` behind `count` entries of an array of this kind, if there is one: a `string` would
    /// have more than 255 entries, or one of them has to be a byte and is not known or over 255.
    pub fn misfit(self, count: usize, values: &[Value]) -> Option<ArrayFault>
        requires { count < 2 ^ 63 }
        ensures { result ≡ misfit self count values.now }
    {
        misfit_by(self, count, values.len(), are_bytes(values))
    }
}

pub(crate) fn misfit_by(
    kind: ArrayKind,
    count: usize,
    added: usize,
    fit: bool,
) -> Option<ArrayFault>
    requires count { count < 2 ^ 63 }
    requires added { added < 2 ^ 63 }
    ensures { result ≡ misfit_by kind count added fit }
{
    if kind == ArrayKind::String && count + added > 255 {
        return Some(ArrayFault::TooMany);
    }
    if kind.is_of_bytes() && !fit {
        return Some(ArrayFault::NotAByte);
    }
    None
}
