//! The steps of a line of code.
use inf_test_lines::{number_or, word};

/// A step with code.
#[derive(Clone, Copy)]
pub(crate) enum Step {
    Add(Addition),
    /// A routine of one local, which calls the routine of this number with it.
    Whole(usize),
    /// The end of a routine.
    Close,
    GiveUp,
    Begin,
    Ask(Question),
}

/// A thing that is added to code.
#[derive(Clone, Copy)]
pub(crate) enum Addition {
    /// The beginning of a routine with this number of locals, and whether it is lost.
    Open(u8, bool),
    /// A branch to the label of this number, where the first local is not 0.
    Branch(u32),
    /// The place of the label of this number.
    Mark(u32),
    /// A call of the routine of this number with the first local.
    Call(usize),
    /// A return of the number of this routine.
    Return(usize),
    NewLine,
    Quit,
}

/// A question to code.
#[derive(Clone, Copy)]
pub(crate) enum Question {
    /// The number of bytes that the finished routines have behind the first one.
    Len,
    /// The numbers of bytes and of references, with those of the first routine.
    Counts,
    /// The numbers of labels, bytes and references that there may be beside the open routine.
    Left,
}

/// Returns the addition that a text spells.
fn addition_of(step: &str) -> Option<Addition> {
    let (number, label) = (number_or(step, 1, 0), word(step, 1).parse().unwrap_or(0));
    let locals = number.min(15) as u8;
    Some(match word(step, 0) {
        "open" => Addition::Open(locals, false),
        "lost" => Addition::Open(locals, true),
        "branch" => Addition::Branch(label),
        "mark" => Addition::Mark(label),
        "call" => Addition::Call(number),
        "return" => Addition::Return(number),
        "new_line" => Addition::NewLine,
        "quit" => Addition::Quit,
        _ => return None,
    })
}

/// Returns the step that a text spells.
pub(crate) fn step_of(step: &str) -> Option<Step> {
    Some(match word(step, 0) {
        "whole" => Step::Whole(number_or(step, 1, 0)),
        "close" => Step::Close,
        "give_up" => Step::GiveUp,
        "begin" => Step::Begin,
        "len" => Step::Ask(Question::Len),
        "counts" => Step::Ask(Question::Counts),
        "left" => Step::Ask(Question::Left),
        _ => Step::Add(addition_of(step)?),
    })
}
