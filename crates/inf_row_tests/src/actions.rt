//! Actions and parsing routines.
ghost use Rattle.std.specs.Prelude.{◌≡◌};
ghost use Rattle.inf_settings.specs.declared.setting.Setting.{Setting};

use crate::tables::{Table, answers, unknown};
use inf_area::{Area, Refs, WriteFault};
use inf_settings::bounds::Bounds;
use inf_test_lines::{Failing, debugged, number_at, outcome, shown, text_of, word};
use inf_verbs::{Actions, ParsingRoutines};
use std::alloc::{AllocError, Global};
use std::marker::Brand;

/// A command for actions or for parsing routines.
#[derive(Clone, Copy)]
enum Command {
    Add(usize),
    Fake,
    Of(usize),
    Len,
}

/// Returns the command that a text spells.
fn command_of(command: &str) -> Option<Command> {
    let routine = number_at(command, 1);
    Some(match word(command, 0) {
        "add" => Command::Add(routine),
        "fake" => Command::Fake,
        "of" => Command::Of(routine),
        "len" => Command::Len,
        _ => return None,
    })
}

impl<B: Bounds> Table for Actions<B> {
    fn obey(&mut self, alloc: Global, command: &str) -> Result<String, AllocError> {
        match command_of(command) {
            Some(Command::Add(routine)) => outcome(alloc, &self.add(routine)),
            Some(Command::Fake) => shown(alloc, &self.add_fake()),
            Some(Command::Of(routine)) => debugged(alloc, &self.number_of(routine)),
            Some(Command::Len) => shown(alloc, &self.len()),
            None => unknown(alloc),
        }
    }

    fn put<A: Area + Drop>(
        &self,
        _alloc: Global,
        _command: &str,
        area: &mut Failing<A>,
        refs: &mut Refs,
    ) -> Result<(), WriteFault> {
        self.write(area, refs)
    }
}

/// Returns the answer to a line of actions.
pub(crate) fn answer(alloc: Global, line: &str) -> Result<String, AllocError> {
    answer_under::<Brand>(alloc, number_at(line, 1), line.as_bytes())
}

/// Returns the answer to a line of actions, of which there may be `limit`.
fn answer_under<B: Bounds>(alloc: Global, limit: usize, line: &[u8]) -> Result<String, AllocError>
    requires { limit ≡ B.most Setting.Actions }
{
    answers(alloc, &mut Actions::<B>::new(alloc, limit), text_of(line))
}

impl Table for ParsingRoutines {
    fn obey(&mut self, alloc: Global, command: &str) -> Result<String, AllocError> {
        match command_of(command) {
            Some(Command::Add(routine)) => shown(alloc, &self.add(routine)?),
            Some(Command::Len) => shown(alloc, &self.len()),
            Some(Command::Fake | Command::Of(_)) | None => unknown(alloc),
        }
    }

    fn put<A: Area + Drop>(
        &self,
        _alloc: Global,
        _command: &str,
        area: &mut Failing<A>,
        refs: &mut Refs,
    ) -> Result<(), WriteFault> {
        self.write(area, refs)
    }
}

/// Returns the answer to a line of parsing routines.
pub(crate) fn answer_parsing(alloc: Global, line: &str) -> Result<String, AllocError> {
    answers(alloc, &mut ParsingRoutines::new(alloc), line)
}
