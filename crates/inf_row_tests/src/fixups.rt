//! Lists of fixups.
use crate::writing::add_fixup;
use inf_area::{AreaName, Fixup, Refs, Target};
use inf_test_lines::{debugged, number_or, word};
use std::alloc::{AllocError, Global};

/// A step on a list of fixups.
#[derive(Clone, Copy)]
enum Step {
    Add(usize),
    Keep(usize),
}

/// Returns the step that a text spells.
fn step_of(step: &str) -> Option<Step> {
    let number = number_or(step, 1, 0);
    Some(match word(step, 0) {
        "add" => Step::Add(number),
        "keep" => Step::Keep(number),
        _ => return None,
    })
}

/// Returns the fixup of routine 7 at a place.
pub(crate) fn fixup(place: usize) -> Fixup {
    Fixup {
        area: AreaName::Code,
        place,
        target: Target::Name(7),
    }
}

/// Returns the fixups of a list in words, or the first five and the last, with their count.
pub(crate) fn fixups_of(alloc: Global, refs: &Refs) -> Result<String, AllocError> {
    let mut told = format!(in alloc; "fixups {}", refs.len())?;
    for (number, fixup) in refs.as_slice().iter().enumerate() {
        if number < 5 || number.saturating_add(1) == refs.len() {
            add_fixup(alloc, &mut told, fixup)?;
        }
    }
    Ok(told)
}

/// Takes a step on a list of fixups, and returns why it was refused, or nothing.
fn refusal(alloc: Global, refs: &mut Refs, step: Option<Step>) -> Result<String, AllocError> {
    match step {
        Some(Step::Add(place)) => match refs.add(fixup(place)) {
            Ok(()) => Ok(String::new(alloc)),
            Err(fault) => debugged(alloc, &fault),
        },
        Some(Step::Keep(count)) if count <= refs.len() => {
            refs.keep(count);
            Ok(String::new(alloc))
        }
        Some(Step::Keep(_)) | None => String::from_str(alloc, "refused"),
    }
}

/// Takes a step on a list of fixups, and adds its refusal and the fixups then.
fn tell(alloc: Global, told: &mut String, refs: &mut Refs, step: &str) -> Result<(), AllocError> {
    let refusal = refusal(alloc, refs, step_of(step))?;
    if !refusal.is_empty() {
        told.push_str(format!(in alloc; "; {refusal}")?.as_str())?;
    }
    told.push_str(format!(in alloc; "; {}", fixups_of(alloc, refs)?)?.as_str())
}

/// Takes the steps of a line on a list of fixups, and returns what each gives.
fn told_of(alloc: Global, refs: &mut Refs, line: &str) -> Result<String, AllocError> {
    let mut told = fixups_of(alloc, refs)?;
    for step in line.split(" | ").skip(1) {
        tell(alloc, &mut told, refs, step)?;
    }
    Ok(told)
}

/// Returns the answer to a line of steps on a list of fixups.
pub(crate) fn answer(alloc: Global, line: &str) -> Result<String, AllocError> {
    told_of(alloc, &mut Refs::new(alloc, number_or(line, 1, 0)), line)
}
