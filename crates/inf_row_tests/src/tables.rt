//! Lines that make a table, obey commands, and write the table.
use crate::writing::Side;
use inf_area::{Area, FlatArea, PagedArea, Refs, WriteFault};
use inf_test_lines::{Failing, one_or_both, repeated, word};
use std::alloc::{AllocError, Global};

/// A table that obeys commands.
pub(crate) trait Table {
    /// Carries out a command, and returns its answer.
    fn obey(&mut self, alloc: Global, command: &str) -> Result<String, AllocError>;

    /// Puts the table behind an area, as a command `write` asks for it.
    fn put<A: Area + Drop>(
        &self,
        alloc: Global,
        command: &str,
        area: &mut Failing<A>,
        refs: &mut Refs,
    ) -> Result<(), WriteFault>;
}

/// Writes a table to an area, and returns the answer.
fn written_to<T: Table, A: Area + Drop>(
    alloc: Global,
    table: &T,
    command: &str,
    area: A,
) -> Result<String, AllocError> {
    let mut side = Side::new(alloc, area, command)?;
    let outcome = table.put(alloc, command, &mut side.area, &mut side.refs);
    side.told(alloc, outcome)
}

/// Writes a table to an area in one piece and to one in pages, and returns the answer.
fn written<T: Table>(alloc: Global, table: &T, command: &str) -> Result<String, AllocError> {
    let flat = written_to(alloc, table, command, FlatArea::new(alloc))?;
    let paged = written_to(alloc, table, command, PagedArea::new(alloc))?;
    one_or_both(alloc, flat, paged)
}

/// Carries out a command as often as it says, and returns its last answer.
fn last_answer<T: Table>(
    alloc: Global,
    table: &mut T,
    command: &str,
) -> Result<String, AllocError> {
    let (count, command) = repeated(command);
    let mut last = String::new(alloc);
    for _ in 0..count {
        last = if word(command, 0) == "write" {
            written(alloc, table, command)?
        } else {
            table.obey(alloc, command)?
        };
    }
    Ok(last)
}

/// Returns the answer to a line of commands for a table.
pub(crate) fn answers<T: Table>(
    alloc: Global,
    table: &mut T,
    line: &str,
) -> Result<String, AllocError> {
    let mut told = String::from_str(alloc, word(line, 0))?;
    for command in line.split(" | ").skip(1) {
        told.push_str(" | ")?;
        told.push_str(last_answer(alloc, table, command)?.as_str())?;
    }
    Ok(told)
}

/// Returns the answer to a command that its table does not know.
pub(crate) fn unknown(alloc: Global) -> Result<String, AllocError> {
    String::from_str(alloc, "no command")
}
