//! The rows of a script, and their answers.
use crate::script::{Given, Script, given_of};
use crate::spelled::fields;
use crate::{
    actions, areas, arrays, code_rows, dictionary, fixups, laid, linking, opcodes, routines, verbs,
    world,
};
use inf_assembler::RoutineKind;
use inf_test_lines::word;
use std::alloc::{AllocError, Global};

/// A line of the script.
#[derive(Clone, Copy)]
enum Row {
    Title,
    Stored(Stored),
    /// Parts of a story, which are kept up to the line that links it.
    Given(Given),
    Link,
}

/// A line that is answered from its words alone.
#[derive(Clone, Copy)]
enum Stored {
    Opcode,
    Area,
    Fixups,
    Code,
    Routine(RoutineKind),
    Expressions,
    Table(TableKind),
}

/// The kind of a table.
#[derive(Clone, Copy)]
enum TableKind {
    Dictionary,
    Arrays,
    Globals,
    Verbs,
    Actions,
    Parsing,
    World,
}

/// Returns the table that a line with this first word makes.
fn table_of(first: &str) -> Option<TableKind> {
    Some(match first {
        "dictionary" => TableKind::Dictionary,
        "arrays" => TableKind::Arrays,
        "globals" => TableKind::Globals,
        "verbs" => TableKind::Verbs,
        "actions" => TableKind::Actions,
        "parsing" => TableKind::Parsing,
        "world" => TableKind::World,
        _ => return None,
    })
}

/// Returns the row with this first word that is answered from its words alone.
fn stored_of(first: &str) -> Option<Stored> {
    Some(match first {
        "opcode" => Stored::Opcode,
        "area" => Stored::Area,
        "refs" => Stored::Fixups,
        "code" => Stored::Code,
        "plain" => Stored::Routine(RoutineKind::Plain),
        "embedded" => Stored::Routine(RoutineKind::Embedded),
        "alone" | "value" | "true" | "false" | "insert" | "call" | "spaces" | "apart" => {
            Stored::Expressions
        }
        name => Stored::Table(table_of(name)?),
    })
}

/// Returns the row with this first word.
fn row_of(first: &str) -> Option<Row> {
    match first {
        "!" => return Some(Row::Title),
        "link" => return Some(Row::Link),
        _ => {}
    }
    match stored_of(first) {
        Some(stored) => Some(Row::Stored(stored)),
        None => Some(Row::Given(given_of(first)?)),
    }
}

/// Returns the answer to a line of a table.
fn table(alloc: Global, kind: TableKind, line: &str) -> Result<String, AllocError> {
    match kind {
        TableKind::Dictionary => dictionary::answer(alloc, line),
        TableKind::Arrays => arrays::answer(alloc, line),
        TableKind::Globals => arrays::answer_globals(alloc, line),
        TableKind::Verbs => verbs::answer(alloc, line),
        TableKind::Actions => actions::answer(alloc, line),
        TableKind::Parsing => actions::answer_parsing(alloc, line),
        TableKind::World => world::answer(alloc, line),
    }
}

/// Returns the answer to a line from its words alone.
fn answer_stored(alloc: Global, stored: Stored, line: &str) -> Result<String, AllocError> {
    match stored {
        Stored::Opcode => opcodes::answer(alloc, line),
        Stored::Area => areas::answer(alloc, line),
        Stored::Fixups => fixups::answer(alloc, line),
        Stored::Code => code_rows::answer(alloc, line),
        Stored::Routine(kind) => routines::answer(alloc, kind, line),
        Stored::Expressions => laid::answer(alloc, line),
        Stored::Table(kind) => table(alloc, kind, line),
    }
}

/// Returns the answer to the story of a script, which begins anew.
fn link(alloc: Global, script: &mut Script, line: &str) -> Result<String, AllocError> {
    let answer = linking::answer(alloc, script, fields(line))?;
    *script = Script::new(alloc);
    Ok(answer)
}

/// Returns the answer to a line, with its end; an empty one where the line gives parts of a story.
pub(crate) fn answer(alloc: Global, script: &mut Script, line: &str) -> Result<String, AllocError> {
    let told = match row_of(word(line, 0)) {
        Some(Row::Title) => String::from_str(alloc, line)?,
        Some(Row::Stored(row)) => answer_stored(alloc, row, line)?,
        Some(Row::Link) => link(alloc, script, line)?,
        Some(Row::Given(given)) => {
            script.add(given, line)?;
            return Ok(String::new(alloc));
        }
        None => String::from_str(alloc, "no row")?,
    };
    format!(in alloc; "{told}\n")
}
