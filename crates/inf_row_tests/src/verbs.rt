//! Verbs and their lines.
ghost use Rattle.std.specs.Prelude.{◌≡◌};
ghost use Rattle.inf_settings.specs.declared.setting.Setting.{Setting};

use crate::line_tokens::tokens_of;
use crate::tables::{Table, answers, unknown};
use crate::values::{byte_at, pair_at};
use inf_area::{Area, Refs, WriteFault};
use inf_settings::bounds::Bounds;
use inf_test_lines::{Failing, debugged, done, number_at, outcome, shown, text_of, word};
use inf_verbs::{LinePlace, Verbs};
use std::alloc::{AllocError, Global};
use std::marker::Brand;

/// A command for verbs.
#[derive(Clone, Copy)]
enum Command {
    Add,
    Extend(u8, LinePlace),
    Line(u8, LinePlace),
    Len,
    Size,
    Later,
    Places,
}

/// Returns the place of a line with this name.
fn place_of(name: &str) -> Option<LinePlace> {
    Some(match name {
        "first" => LinePlace::First,
        "replace" => LinePlace::Replace,
        "last" => LinePlace::Last,
        _ => return None,
    })
}

/// Returns the command that a text spells.
fn command_of(command: &str) -> Option<Command> {
    let verb = byte_at(command, 1);
    Some(match word(command, 0) {
        "add" => Command::Add,
        "extend" => Command::Extend(verb, place_of(word(command, 2))?),
        "line" => Command::Line(verb, place_of(word(command, 2))?),
        "len" => Command::Len,
        "size" => Command::Size,
        "later" => Command::Later,
        "places" => Command::Places,
        _ => return None,
    })
}

/// Returns the answer to a command for a verb that there is not.
fn no_verb(alloc: Global) -> Result<String, AllocError> {
    String::from_str(alloc, "no verb")
}

/// Adds a line to a verb, and returns the answer.
fn add_line<B: Bounds>(
    alloc: Global,
    verbs: &mut Verbs<B>,
    verb: u8,
    place: LinePlace,
    command: &str,
) -> Result<String, AllocError> {
    if usize::from(verb) >= verbs.len() {
        return no_verb(alloc);
    }
    let tokens = tokens_of(alloc, command)?;
    let is_reverse = command.ends_with(" reverse");
    let answer = verbs.add_line(verb, place, pair_at(command, 3), is_reverse, &tokens);
    done(alloc, &answer)
}

/// Extends a verb, and returns the answer.
fn extend<B: Bounds>(
    alloc: Global,
    verbs: &mut Verbs<B>,
    verb: u8,
    place: LinePlace,
) -> Result<String, AllocError> {
    if usize::from(verb) >= verbs.len() {
        return no_verb(alloc);
    }
    verbs.extend(verb, place)?;
    String::from_str(alloc, "ok")
}

impl<B: Bounds> Table for Verbs<B> {
    fn obey(&mut self, alloc: Global, command: &str) -> Result<String, AllocError> {
        match command_of(command) {
            Some(Command::Add) => outcome(alloc, &self.add()),
            Some(Command::Extend(verb, place)) => extend(alloc, self, verb, place),
            Some(Command::Line(verb, place)) => add_line(alloc, self, verb, place, command),
            Some(Command::Len) => shown(alloc, &self.len()),
            Some(Command::Size) => shown(alloc, &self.size()),
            Some(Command::Later) => shown(alloc, &self.later_count()),
            Some(Command::Places) => debugged(alloc, &self.places()?.as_slice()),
            None => unknown(alloc),
        }
    }

    fn put<A: Area + Drop>(
        &self,
        _alloc: Global,
        _command: &str,
        area: &mut Failing<A>,
        refs: &mut Refs,
    ) -> Result<(), WriteFault> {
        self.write(area, refs)
    }
}

/// Returns the answer to a line of verbs.
pub(crate) fn answer(alloc: Global, line: &str) -> Result<String, AllocError> {
    let (limit, space) = (number_at(line, 1), number_at(line, 2));
    answer_under::<Brand>(alloc, limit, space, line.as_bytes())
}

/// Returns the answer to a line of verbs, of which there may be `limit`, with `space` bytes of grammar.
fn answer_under<B: Bounds>(
    alloc: Global,
    limit: usize,
    space: usize,
    line: &[u8],
) -> Result<String, AllocError>
    requires verbs { limit ≡ B.most Setting.Verbs }
    requires bytes { space ≡ B.most Setting.GrammarLines }
{
    answers(
        alloc,
        &mut Verbs::<B>::new(alloc, limit, space),
        text_of(line),
    )
}
