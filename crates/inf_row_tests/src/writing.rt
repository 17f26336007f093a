//! Areas to which tables are written.
use inf_area::{Area, Fixup, Refs, WriteFault};
use inf_test_lines::{Failing, bytes_in, number_at};
use std::alloc::{AllocError, Global};

/// An area and its fixups, as a command asks for them.
#[derive(Drop)]
pub(crate) struct Side<A: Area + Drop> {
    pub(crate) area: Failing<A>,
    pub(crate) refs: Refs,
}

impl<A: Area + Drop> Side<A> {
    /// Returns an area that has the bytes in front already, with room for the bytes and fixups that a command `write` gives.
    pub(crate) fn new(alloc: Global, mut inner: A, command: &str) -> Result<Side<A>, AllocError> {
        for _ in 0..number_at(command, 3) {
            inner.push(255)?;
        }
        Ok(Side {
            area: Failing {
                inner,
                room: Some(number_at(command, 2)),
            },
            refs: Refs::new(alloc, number_at(command, 1)),
        })
    }

    /// Returns the outcome of a write: whether it was refused, the bytes and the fixups.
    pub(crate) fn told(
        &self,
        alloc: Global,
        outcome: Result<(), WriteFault>,
    ) -> Result<String, AllocError> {
        let mut told = String::from_str(alloc, word_of(outcome))?;
        add_bytes(alloc, &mut told, &self.area)?;
        add_fixups(alloc, &mut told, self.refs.as_slice())?;
        Ok(told)
    }
}

/// Returns the outcome of a write in a word.
fn word_of(outcome: Result<(), WriteFault>) -> &'static str {
    match outcome {
        Ok(()) => "ok ",
        Err(WriteFault::Full) => "Full ",
        Err(WriteFault::Memory) => "Memory ",
    }
}

/// Appends the bytes of an area, in hexadecimal digits.
fn add_bytes<A: Area>(alloc: Global, told: &mut String, area: &A) -> Result<(), AllocError> {
    for byte in bytes_in(alloc, area)?.as_slice() {
        told.push_str(format!(in alloc; "{byte:02x}")?.as_str())?;
    }
    Ok(())
}

/// Appends a fixup.
pub(crate) fn add_fixup(alloc: Global, told: &mut String, fixup: &Fixup) -> Result<(), AllocError> {
    let (area, place, target) = (fixup.area, fixup.place, fixup.target);
    told.push_str(format!(in alloc; " {area:?}:{place}:{target:?}")?.as_str())
}

/// Appends fixups.
fn add_fixups(alloc: Global, told: &mut String, fixups: &[Fixup]) -> Result<(), AllocError> {
    for fixup in fixups {
        add_fixup(alloc, told, fixup)?;
    }
    Ok(())
}
