//! The words of the head of a source.
ghost use Rattle.std.specs.{Char.is_ascii, List.list_all, Option.option_copied, Str.IsUtf8};
ghost use Rattle.std.specs.Prelude.{◌≡◌, ◌≤◌, Some, length};
ghost use Rattle.inf_settings.specs.Words.{assignment_of};
ghost use Rattle.inf_command.specs.Heads.{no_head, take_head_word, with_head_letters, with_head_setting};
ghost use Rattle.inf_command.specs.Words.{chosen_letters};

use crate::letters::chosen;
use crate::spoken::Spoken;
use arrayvec::ArrayString;
use inf_letters::Letters;
use inf_settings::words::Assignment;
use std::marker::Model;

/// The most bytes that a word of a head may have.
const MOST_WORD_BYTES: usize = 255;

/// The most bytes behind the sign of a word of a head.
const MOST_PATH_BYTES: usize = 254;

/// The choices of the words of the head of a source, for matters of which those of the command are silent: those of
/// letters, the settings that are named, and the text behind the sign of a word `+..`.
#[derive(Drop)]
pub struct Head {
    pub(crate) letters: Letters,
    pub(crate) settings: Spoken,
    path: Option<ArrayString<MOST_PATH_BYTES>>,
}

impl Model for Head {
    ghost use Rattle.std.specs.Option.{option_map};
    ghost use Rattle.inf_command.specs.Heads.{HeadWords};

    ghost Value = { HeadWords };

    ghost view = { λ h. record {
      letters = h.letters;
      settings = h.settings;
      path = option_map (λ path. path.bytes) h.path;
    } };
}

/// Returns whether all bytes are of ASCII.
fn all_ascii(bytes: &[u8]) -> bool
    ensures { result ≡ list_all is_ascii bytes.now }
{
    bytes.iter().all(|byte| byte.is_ascii())
}

impl Head {
    /// Returns a head without words.
    pub fn none() -> Head
        ensures { result ≡ no_head }
    {
        Head {
            letters: Letters::none(),
            settings: Spoken::none(),
            path: None,
        }
    }

    /// Takes one word of a head more, the bytes `word`, which has the last say on its matter.
    ///
    /// Words are read as those of a command (`CommandLine::read`). A word chooses nothing that begins with none of `-`,
    /// `$` and `+`, that the command would refuse, or that has more than 255 bytes or one that is not of ASCII.
    pub fn take(&mut self, word: &[u8])
        ensures { self.new ≡ take_head_word self.old word.now }
    {
        if word.len() > MOST_WORD_BYTES || !all_ascii(word) {
            return;
        }
        match word {
            [b'-', letters @ ..] => self.take_letters(letters),
            [b'$', ..] => self.take_setting(word),
            [b'+', path @ ..] => self.take_path(path),
            _ => {}
        }
    }

    fn take_letters(&mut self, letters: &[u8])
        ensures { self.new ≡ with_head_letters self.old (chosen_letters self.old.letters letters.now) }
    {
        if let Some(letters) = chosen(self.letters, letters) {
            self.letters = letters;
        }
    }

    fn take_setting(&mut self, word: &[u8])
        ensures { self.new ≡ with_head_setting self.old (assignment_of word.now) }
    {
        if let Some(assignment) = Assignment::of(word) {
            let _ = self.settings.set(assignment.name, assignment.number);
        }
    }

    fn take_path(&mut self, path: &[u8])
        requires text { IsUtf8 path.now }
        requires short { length path.now ≤ 254 }
        ensures { self.new ≡ record self.old { path = Some path.now } }
    {
        let Ok(text) = str::from_utf8(path) else {
            unreachable!()
        };
        let Ok(path) = ArrayString::from(text) else {
            unreachable!()
        };
        self.path = Some(path);
    }

    /// Returns the text behind the sign of a word `+..`, where one was taken.
    pub(crate) fn path(&self) -> Option<&str>
        ensures { option_copied result ≡ self.now.path }
    {
        match &self.path {
            Some(path) => Some(path.as_str()),
            None => None,
        }
    }
}
