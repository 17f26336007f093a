//! The steps of a line about areas.
use crate::values::{byte_at, pair_at};
use inf_area::{Area, FlatArea, PagedArea};
use inf_test_lines::{Digits, add_runs, bytes_in, number_or, one_or_both, word};
use std::alloc::{AllocError, Global};

/// A step on an area.
#[derive(Clone, Copy)]
enum Step {
    Push { byte: u8, count: usize },
    Append,
    Byte(usize, u8),
    Word(usize, u16),
    Move { to: usize, from: usize, end: usize },
    Cut(usize, usize),
}

/// Returns the step that a text spells.
fn step_of(step: &str) -> Option<Step> {
    let (first, second) = (number_or(step, 1, 0), number_or(step, 2, 0));
    Some(match word(step, 0) {
        "push" => Step::Push {
            byte: byte_at(step, 1),
            count: second,
        },
        "append" => Step::Append,
        "byte" => Step::Byte(first, byte_at(step, 2)),
        "word" => Step::Word(first, pair_at(step, 2)),
        "move" => Step::Move {
            to: first,
            from: second,
            end: number_or(step, 3, 0),
        },
        "cut" => Step::Cut(first, second),
        _ => return None,
    })
}

/// Appends a byte to an area some times.
fn push<A: Area>(area: &mut A, byte: u8, count: usize) -> Result<(), AllocError> {
    for _ in 0..count {
        area.push(byte)?;
    }
    Ok(())
}

/// Takes one step on an area: nothing happens where its places are not within.
fn act<A: Area>(area: &mut A, step: Step) -> Result<(), AllocError> {
    let len = area.len();
    match step {
        Step::Push { byte, count } => push(area, byte, count)?,
        Step::Append => area.append(&[1, 2, 3, 4, 5])?,
        Step::Byte(at, byte) if at < len => area.patch_byte(at, byte),
        Step::Word(at, pair) if at < len && len - at > 1 => area.patch_word(at, pair),
        Step::Move { to, from, end } if to <= from && from <= end && end <= len => {
            area.move_left(to, from, end)
        }
        Step::Cut(at, count) if at <= len && count <= len - at => area.cut(at, count),
        Step::Byte(..) | Step::Word(..) | Step::Move { .. } | Step::Cut(..) => {}
    }
    Ok(())
}

/// Returns the bytes of an area, where `BB*3` is three times the same.
pub(crate) fn bytes_of<A: Area>(alloc: Global, area: &A) -> Result<String, AllocError> {
    let mut told = String::from_str(alloc, "bytes")?;
    let bytes = bytes_in(alloc, area)?;
    add_runs(alloc, &mut told, Digits::Two, bytes.as_slice())?;
    Ok(told)
}

/// Takes a step of a line, and returns the length and bytes of the area behind it.
fn told_behind<A: Area>(alloc: Global, area: &mut A, step: &str) -> Result<String, AllocError> {
    match step_of(step) {
        Some(step) => act(area, step)?,
        None => return String::from_str(alloc, "; no step"),
    }
    format!(in alloc; "; {} {}", area.len(), bytes_of(alloc, area)?)
}

/// Returns the bytes of an area, and its length and bytes behind each step of a line.
fn told_of<A: Area>(alloc: Global, area: &mut A, line: &str) -> Result<String, AllocError> {
    let mut told = bytes_of(alloc, area)?;
    for step in line.split(" | ").skip(1) {
        told.push_str(told_behind(alloc, area, step)?.as_str())?;
    }
    Ok(told)
}

/// Returns the answer to a line of steps, which both areas take.
pub(crate) fn answer(alloc: Global, line: &str) -> Result<String, AllocError> {
    let flat = told_of(alloc, &mut FlatArea::new(alloc), line)?;
    let paged = told_of(alloc, &mut PagedArea::new(alloc), line)?;
    one_or_both(alloc, flat, paged)
}
