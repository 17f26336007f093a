//! Dictionaries.
ghost use Rattle.std.specs.Prelude.{◌≡◌};
ghost use Rattle.inf_settings.specs.declared.setting.Setting.{Setting};

use crate::tables::{Table, answers, unknown};
use inf_area::{Area, Refs, WriteFault};
use inf_dictionary::{Dictionary, WordUse};
use inf_settings::bounds::Bounds;
use inf_test_lines::{Failing, debugged, done, number, number_at, shown, six_bytes, text_of, word};
use std::alloc::{AllocError, Global};
use std::marker::Brand;

/// A command for a dictionary.
#[derive(Clone, Copy)]
enum Command {
    Use {
        text: [u8; 6],
        kind: WordUse,
        is_plural: bool,
    },
    Verb([u8; 6]),
    Misfit,
    Rank,
    Len,
}

/// Returns the use of a word with this name.
fn use_of(kind: &str) -> WordUse {
    if let Some(verb) = kind.strip_prefix("verb") {
        return WordUse::Verb((number(verb) % 256) as u8);
    }
    if let Some(verb) = kind.strip_prefix("meta") {
        return WordUse::MetaVerb((number(verb) % 256) as u8);
    }
    if kind == "prep" {
        return WordUse::Preposition;
    }
    WordUse::Other
}

/// Returns the command that a text spells.
fn command_of(command: &str) -> Option<Command> {
    let text = six_bytes(word(command, 1));
    Some(match word(command, 0) {
        "use" => Command::Use {
            text,
            kind: use_of(word(command, 2)),
            is_plural: word(command, 3) == "plural",
        },
        "verb" => Command::Verb(text),
        "misfit" => Command::Misfit,
        "rank" => Command::Rank,
        "len" => Command::Len,
        _ => return None,
    })
}

/// Returns the texts that a command names, behind its first word.
fn texts_of(alloc: Global, command: &str) -> Result<Vec<[u8; 6]>, AllocError> {
    let mut texts = Vec::new(alloc);
    for text in command.split(' ').skip(1) {
        texts.push(six_bytes(text))?;
    }
    Ok(texts)
}

/// Returns the first text of a command that does not fit into the dictionary.
fn misfit<B: Bounds>(
    alloc: Global,
    words: &Dictionary<B>,
    command: &str,
) -> Result<String, AllocError> {
    let texts = texts_of(alloc, command)?;
    debugged(alloc, &words.first_misfit(alloc, texts.as_slice())?)
}

/// Returns for each text of a command the number of words that come before it.
fn ranks<B: Bounds>(
    alloc: Global,
    words: &Dictionary<B>,
    command: &str,
) -> Result<String, AllocError> {
    let places = words.places(alloc)?;
    let mut told = String::new(alloc);
    for text in command.split(' ').skip(1) {
        let gap = if told.is_empty() { "" } else { " " };
        told.push_str(format!(in alloc; "{gap}{}", places.rank(six_bytes(text)))?.as_str())?;
    }
    Ok(told)
}

impl<B: Bounds> Table for Dictionary<B> {
    fn obey(&mut self, alloc: Global, command: &str) -> Result<String, AllocError> {
        match command_of(command) {
            Some(
                Command::Use {
                    text,
                    kind,
                    is_plural,
                },
            ) => done(alloc, &self.add(text, kind, is_plural)),
            Some(Command::Verb(text)) => debugged(alloc, &self.verb_of(&text)),
            Some(Command::Misfit) => misfit(alloc, self, command),
            Some(Command::Rank) => ranks(alloc, self, command),
            Some(Command::Len) => shown(alloc, &self.len()),
            None => unknown(alloc),
        }
    }

    fn put<A: Area + Drop>(
        &self,
        alloc: Global,
        _command: &str,
        area: &mut Failing<A>,
        _refs: &mut Refs,
    ) -> Result<(), WriteFault> {
        match self.write(alloc, area) {
            Ok(()) => Ok(()),
            Err(AllocError) => Err(WriteFault::Memory),
        }
    }
}

/// Returns the answer to a line of a dictionary.
pub(crate) fn answer(alloc: Global, line: &str) -> Result<String, AllocError> {
    answer_under::<Brand>(alloc, number_at(line, 1), line.as_bytes())
}

/// Returns the answer to a line of a dictionary, which may have `limit` words.
fn answer_under<B: Bounds>(alloc: Global, limit: usize, line: &[u8]) -> Result<String, AllocError>
    requires { limit ≡ B.most Setting.DictionaryEntries }
{
    answers(
        alloc,
        &mut Dictionary::<B>::new(alloc, limit),
        text_of(line),
    )
}
