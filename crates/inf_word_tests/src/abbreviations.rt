//! Abbreviations.
use crate::texts::{bytes_of, mode_of, told_items, told_packed};
use inf_test_lines::{debugged, outcome, shown, word};
use inf_text::{Abbreviations, CharSet, Mode, Text, TextFault, read_text};
use std::alloc::{AllocError, Global};

/// A command for abbreviations.
#[derive(Clone, Copy)]
enum Command {
    Declare(Mode),
    Count,
    Last,
    Pack,
}

/// Returns the command that a text spells.
fn command_of(command: &str) -> Option<Command> {
    Some(match word(command, 0) {
        "declare" => Command::Declare(mode_of(word(command, 1))),
        "count" => Command::Count,
        "last" => Command::Last,
        "pack" => Command::Pack,
        _ => return None,
    })
}

/// Returns the text of a word.
fn text_of(alloc: Global, word: &str, mode: Mode) -> Result<Result<Text, TextFault>, AllocError> {
    let bytes = bytes_of(alloc, word, 1)?;
    Ok(read_text(alloc, bytes.as_slice(), CharSet::Ascii, mode))
}

/// Declares a text, and returns the answer.
fn declare(
    alloc: Global,
    abbreviations: &mut Abbreviations,
    mode: Mode,
    spelled: &str,
) -> Result<String, AllocError> {
    match text_of(alloc, spelled, mode)? {
        Ok(text) => outcome(alloc, &abbreviations.declare(&text)),
        Err(fault) => debugged(alloc, &fault),
    }
}

/// Returns the items of the last abbreviation.
fn last(alloc: Global, abbreviations: &Abbreviations) -> Result<String, AllocError> {
    match abbreviations.as_slice().last() {
        Some(text) => told_items(alloc, text),
        None => String::from_str(alloc, "none"),
    }
}

/// Packs a text, and returns the answer.
fn packed(
    alloc: Global,
    abbreviations: &Abbreviations,
    spelled: &str,
) -> Result<String, AllocError> {
    match text_of(alloc, spelled, Mode::Text)? {
        Ok(text) => told_packed(alloc, &text, Some(abbreviations)),
        Err(fault) => debugged(alloc, &fault),
    }
}

/// Carries out a command, and returns the answer.
fn obey(
    alloc: Global,
    abbreviations: &mut Abbreviations,
    command: &str,
) -> Result<String, AllocError> {
    match command_of(command) {
        Some(Command::Declare(mode)) => declare(alloc, abbreviations, mode, word(command, 2)),
        Some(Command::Count) => shown(alloc, &abbreviations.len()),
        Some(Command::Last) => last(alloc, abbreviations),
        Some(Command::Pack) => packed(alloc, abbreviations, word(command, 1)),
        None => String::from_str(alloc, "no command"),
    }
}

/// Returns the answers to the commands of a line.
fn answers(
    alloc: Global,
    abbreviations: &mut Abbreviations,
    line: &str,
) -> Result<String, AllocError> {
    let mut told = String::from_str(alloc, "abbreviations")?;
    for command in line.split(" | ").skip(1) {
        told.push_str(" | ")?;
        told.push_str(obey(alloc, abbreviations, command)?.as_str())?;
    }
    Ok(told)
}

/// Returns the answer to a line of commands.
pub(crate) fn answer(alloc: Global, line: &str) -> Result<String, AllocError> {
    answers(alloc, &mut Abbreviations::new(alloc), line)
}
