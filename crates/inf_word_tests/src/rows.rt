//! The rows of a script, and their answers.
use crate::commands::{self, Matter};
use crate::texts::{self, TextRow};
use crate::{abbreviations, names};
use inf_test_lines::word;
use std::alloc::{AllocError, Global};

/// A line of the script.
#[derive(Clone, Copy)]
enum Row {
    Title,
    Text(TextRow),
    Abbreviations,
    Names,
    /// A name of the language, with debugging or without.
    System(bool),
    Command(Matter),
}

/// Returns the row with this first word.
fn row_of(first: &str) -> Option<Row> {
    Some(match first {
        "!" => Row::Title,
        "abbreviations" => Row::Abbreviations,
        "names" => Row::Names,
        "system" => Row::System(false),
        "debug" => Row::System(true),
        "pack" => Row::Text(TextRow::Pack),
        "count" => Row::Text(TextRow::Count),
        "items" => Row::Text(TextRow::Items),
        "word" => Row::Text(TextRow::Word),
        "char" => Row::Text(TextRow::Char),
        "zscii" => Row::Text(TextRow::Zscii),
        "refusal" => Row::Command(Matter::Refusal),
        "letters" => Row::Command(Matter::Letters),
        "setting" => Row::Command(Matter::Setting),
        "paths" => Row::Command(Matter::Paths),
        "files" => Row::Command(Matter::Files),
        "head" => Row::Command(Matter::Head),
        _ => return None,
    })
}

/// Returns the answer to a line.
pub(crate) fn answer(alloc: Global, line: &str) -> Result<String, AllocError> {
    match row_of(word(line, 0)) {
        Some(Row::Title) => String::from_str(alloc, line),
        Some(Row::Text(row)) => texts::answer(alloc, row, line),
        Some(Row::Abbreviations) => abbreviations::answer(alloc, line),
        Some(Row::Names) => names::answer(alloc, line),
        Some(Row::System(is_debugging)) => names::system(alloc, word(line, 1), is_debugging),
        Some(Row::Command(matter)) => commands::answer(alloc, matter, line),
        None => String::from_str(alloc, "no row"),
    }
}
