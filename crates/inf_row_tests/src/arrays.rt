//! Arrays and global variables.
ghost use Rattle.std.specs.Prelude.{◌≡◌};
ghost use Rattle.inf_settings.specs.declared.setting.Setting.{Setting};

use crate::tables::{Table, answers, unknown};
use crate::values::{pair_at, value_of};
use inf_area::{Area, Refs, Value, WriteFault};
use inf_arrays::{ArrayKind, Arrays, Globals};
use inf_settings::bounds::Bounds;
use inf_test_lines::{Failing, bytes_of, done, number_at, outcome, shown, text_of, word};
use std::alloc::{AllocError, Global};
use std::marker::Brand;

/// A command for arrays.
#[derive(Clone, Copy)]
enum Command {
    Open(ArrayKind),
    Add(Entries),
    Size,
    Later,
}

/// Entries that are added to the open array.
#[derive(Clone, Copy)]
enum Entries {
    One(Value),
    Zeros(u16),
    /// Bytes that are spelled in digits.
    Text,
}

/// Returns the kind of an array with this name.
fn kind_of(name: &str) -> Option<ArrayKind> {
    Some(match name {
        "bytes" => ArrayKind::Bytes,
        "words" => ArrayKind::Words,
        "string" => ArrayKind::String,
        "table" => ArrayKind::Table,
        _ => return None,
    })
}

/// Returns the command that a text spells.
fn command_of(command: &str) -> Option<Command> {
    let first = word(command, 1);
    Some(match word(command, 0) {
        "open" => Command::Open(kind_of(first)?),
        "entry" => Command::Add(Entries::One(value_of(first))),
        "zeros" => Command::Add(Entries::Zeros(pair_at(command, 1))),
        "text" => Command::Add(Entries::Text),
        "size" => Command::Size,
        "later" => Command::Later,
        _ => return None,
    })
}

/// Adds entries to the open array, if there is one, and returns the answer.
fn add<B: Bounds>(
    alloc: Global,
    arrays: &mut Arrays<B>,
    entries: Entries,
    command: &str,
) -> Result<String, AllocError> {
    if !arrays.is_open() {
        return String::from_str(alloc, "no array");
    }
    let outcome = match entries {
        Entries::One(value) => arrays.entry(value),
        Entries::Zeros(count) => arrays.zeros(count),
        Entries::Text => arrays.characters(bytes_of(alloc, word(command, 1))?.as_slice()),
    };
    done(alloc, &outcome)
}

impl<B: Bounds> Table for Arrays<B> {
    fn obey(&mut self, alloc: Global, command: &str) -> Result<String, AllocError> {
        match command_of(command) {
            Some(Command::Open(kind)) => outcome(alloc, &self.open(kind)),
            Some(Command::Add(entries)) => add(alloc, self, entries, command),
            Some(Command::Size) => shown(alloc, &self.size()),
            Some(Command::Later) => shown(alloc, &self.later_count()),
            None => unknown(alloc),
        }
    }

    fn put<A: Area + Drop>(
        &self,
        _alloc: Global,
        _command: &str,
        area: &mut Failing<A>,
        refs: &mut Refs,
    ) -> Result<(), WriteFault> {
        self.write(area, refs)
    }
}

/// Returns the answer to a line of arrays.
pub(crate) fn answer(alloc: Global, line: &str) -> Result<String, AllocError> {
    answer_under::<Brand>(alloc, number_at(line, 1), line.as_bytes())
}

/// Returns the answer to a line of arrays, which may have `limit` bytes.
fn answer_under<B: Bounds>(alloc: Global, limit: usize, line: &[u8]) -> Result<String, AllocError>
    requires { limit ≡ B.most Setting.Arrays }
{
    answers(alloc, &mut Arrays::<B>::new(alloc, limit), text_of(line))
}

impl Table for Globals {
    fn obey(&mut self, alloc: Global, command: &str) -> Result<String, AllocError> {
        match word(command, 0) {
            "add" => outcome(alloc, &self.add(value_of(word(command, 1)))),
            "len" => shown(alloc, &self.len()),
            "later" => shown(alloc, &self.later_count()),
            _ => unknown(alloc),
        }
    }

    fn put<A: Area + Drop>(
        &self,
        _alloc: Global,
        _command: &str,
        area: &mut Failing<A>,
        refs: &mut Refs,
    ) -> Result<(), WriteFault> {
        self.write(area, refs)
    }
}

/// Returns the answer to a line of global variables.
pub(crate) fn answer_globals(alloc: Global, line: &str) -> Result<String, AllocError> {
    answers(alloc, &mut Globals::new(alloc), line)
}
