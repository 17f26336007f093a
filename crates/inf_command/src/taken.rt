//! The words of a command one by one.
ghost use Rattle.std.specs.Prelude.{◌≡◌, option_copied};
ghost use Rattle.inf_settings.specs.Words.{assignment_of};
ghost use Rattle.inf_command.specs.Words.{chosen_letters, choice_of, no_words, take_letters, take_name, take_setting, take_word};

use crate::command_line::{Options, WordFault};
use crate::letters::chosen;
use crate::spoken::Spoken;
use inf_letters::Letters;
use inf_settings::words::Assignment;
use std::marker::Model;

/// The choices of the words so far.
#[derive(Drop)]
pub(crate) struct Taken<'a> {
    source: Option<&'a str>,
    story: Option<&'a str>,
    settings: Spoken,
    letters: Letters,
    path: Option<&'a str>,
}

impl<'a> Model for Taken<'a> {
    ghost use Rattle.std.specs.Option.{option_copied};
    ghost use Rattle.inf_command.specs.Words.{TakenWords};

    ghost Value = { TakenWords };

    ghost view = { λ t. record {
      source = option_copied t.source;
      story = option_copied t.story;
      settings = t.settings;
      letters = t.letters;
      path = option_copied t.path;
    } };
}

impl<'a> Taken<'a> {
    pub(crate) fn none() -> Taken<'a>
        ensures { result ≡ no_words }
    {
        Taken {
            source: None,
            story: None,
            settings: Spoken::none(),
            letters: Letters::none(),
            path: None,
        }
    }

    /// Takes `word`, which is at `place` among the words. Returns the error of a word that is refused.
    pub(crate) fn and(self, place: usize, word: &'a str) -> Result<Taken<'a>, WordFault>
        ensures { result ≡ take_word self.entry place word.now }
    {
        match word.as_bytes() {
            [b'-', letters @ ..] => self.with_letters(place, letters),
            [b'$', ..] => self.with_setting(place, word.as_bytes()),
            [b'+', ..] => Ok(self.with_path(&word[1..])),
            _ => self.with_name(place, word),
        }
    }

    fn with_letters(mut self, place: usize, letters: &[u8]) -> Result<Taken<'a>, WordFault>
        ensures { result ≡ take_letters self.entry place (chosen_letters self.entry.letters letters.now) }
    {
        self.letters = chosen(self.letters, letters).ok_or(WordFault::Unknown(place))?;
        Ok(self)
    }

    fn with_setting(mut self, place: usize, word: &[u8]) -> Result<Taken<'a>, WordFault>
        ensures { result ≡ take_setting self.entry place (assignment_of word.now) }
    {
        let Some(assignment) = Assignment::of(word) else {
            return Err(WordFault::BadSetting(place));
        };
        match self.settings.set(assignment.name, assignment.number) {
            Ok(()) => Ok(self),
            Err(_) => Err(WordFault::BadSetting(place)),
        }
    }

    fn with_path(mut self, path: &'a str) -> Taken<'a>
        ensures { result ≡ record self.entry { path = Some path.now } }
    {
        self.path = Some(path);
        self
    }

    fn with_name(mut self, place: usize, word: &'a str) -> Result<Taken<'a>, WordFault>
        ensures { result ≡ take_name self.entry.source self.entry.story self.entry place word.now }
    {
        match (self.source, self.story) {
            (None, _) => self.source = Some(word),
            (_, None) => self.story = Some(word),
            _ => return Err(WordFault::TooMany(place)),
        }
        Ok(self)
    }

    /// Returns the choices at the end of the words, or `NoSource` where none names a source.
    pub(crate) fn finish(self) -> Result<Options<'a>, WordFault>
        ensures { result ≡ choice_of self.entry.source self.entry }
    {
        let source = self.source.ok_or(WordFault::NoSource)?;
        Ok(Options {
            source,
            story: self.story,
            settings: self.settings,
            letters: self.letters,
            path: self.path,
        })
    }
}
