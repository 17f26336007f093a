//! The words of a command, and the names of the files that they give.
ghost use Rattle.std.specs.{Option.option_copied, Option.option_or, String.string_bytes};
ghost use Rattle.std.specs.Prelude.{◌≡◌, ◌<◌, ◌==◌, IfOk, length, map};
ghost use Rattle.inf_command.specs.{Directories.directories_of, Heads.with_head, Spoken.settings_of, Words.read_words};
ghost use Rattle.inf_command.specs.FileNames.{extension, stem, source_name, story_name};
ghost use Rattle.inf_letters.specs.Letters.{set_of, warns};

use crate::directories::parts_of;
use crate::head::Head;
use crate::spoken::Spoken;
use crate::taken::Taken;
use inf_area::Scale;
use inf_characters::CharSet;
use inf_letters::Letters;
use inf_settings::settings::Settings;
use std::alloc::{AllocError, Global};
use std::marker::Model;
use thiserror::Error;

/// The reason why a word of a command was refused. A place counts the words from 0.
#[derive(Clone, Copy, Debug, PartialEq, Eq, Error)]
pub enum WordFault {
    /// The word at this place begins with `-`, and has no letter behind it or one that is unknown.
    #[error("word {0} is unknown")]
    Unknown(usize),
    /// The word at this place begins with `$`, and does not set a setting to a number that it can have.
    #[error("word {0} is no fit setting")]
    BadSetting(usize),
    /// No word names a source.
    #[error("no source")]
    NoSource,
    /// The word at this place comes behind a source and a story.
    #[error("word {0} is one too many")]
    TooMany(usize),
}

/// The choices of a command's words: the word for the source, the word for the story where there is one, the settings
/// that are named, those of letters, and the text behind the sign of a word `+..`.
#[derive(Drop)]
pub struct Options<'a> {
    pub(crate) source: &'a str,
    pub(crate) story: Option<&'a str>,
    pub(crate) settings: Spoken,
    pub(crate) letters: Letters,
    pub(crate) path: Option<&'a str>,
}

impl<'a> Model for Options<'a> {
    ghost use Rattle.std.specs.Option.{option_copied};
    ghost use Rattle.inf_command.specs.Words.{Choice};

    ghost Value = { Choice };

    ghost view = { λ o. record {
      source = o.source.now;
      story = option_copied o.story;
      settings = o.settings;
      letters = o.letters;
      path = option_copied o.path;
    } };
}

impl<'a> Options<'a> {
    /// Returns the number of each setting: the one of the last word that sets it, else its default.
    pub fn settings(&self) -> Settings
        ensures { result ≡ settings_of self.now.settings }
    {
        self.settings.settings()
    }

    /// Returns the choices of the words' letters, matter by matter.
    pub fn letters(&self) -> Letters
        ensures { result ≡ self.now.letters }
    {
        self.letters
    }

    /// Returns whether the word for the source is empty, so that it names no file.
    pub fn names_nothing(&self) -> bool
        ensures { result ≡ (length self.now.source == 0) }
    {
        self.source.is_empty()
    }

    /// Returns the character set of the source: ISO Latin-1 where no word chooses.
    pub fn set(&self) -> CharSet
        ensures { result ≡ set_of self.now.letters }
    {
        self.letters.set()
    }

    /// Returns whether warnings are reported, which they are where no word says otherwise.
    pub fn has_warnings(&self) -> bool
        ensures { result ≡ warns self.now.letters }
    {
        self.letters.warns()
    }

    /// Returns the choices of these words over those of the source's `head`: on each matter of which none of these
    /// words speaks, the head decides.
    ///
    /// The name that a story has of itself goes by the words of the command alone.
    pub fn with_head<'h>(&self, head: &'h Head) -> Options<'h>
    where
        'a: 'h,
        ensures { result ≡ with_head head.now self.now }
    {
        Options {
            source: self.source,
            story: self.story,
            settings: self.settings.over(&head.settings),
            letters: self.letters.over(head.letters),
            path: first_of(self.path, head.path()),
        }
    }

    /// Returns the directories in which included files are looked for, in their order: none where no word gives them.
    /// An empty one leaves a file's name as it is.
    ///
    /// The only error is that no memory was left.
    pub fn directories(&self, alloc: Global) -> Result<Vec<&'a str>, AllocError>
        ensures { IfOk result (λ directories. map (λ d. d.now) directories.items ≡ directories_of self.now.path) }
    {
        match self.path {
            Some(path) => parts_of(alloc, path),
            None => Ok(Vec::new(alloc)),
        }
    }
}

/// Returns `first` where there is a text, else `second`.
fn first_of<'a>(first: Option<&'a str>, second: Option<&'a str>) -> Option<&'a str>
    ensures { option_copied result ≡ option_or (option_copied first.entry) (option_copied second.entry) }
{
    match first {
        Some(text) => Some(text),
        None => second,
    }
}

/// The words of a command.
pub struct CommandLine;

impl CommandLine {
    /// Reads the words from left to right; a later word on the same matter wins.
    ///
    /// `-` is followed by letters, which choose as `Letters` has it. `$NAME=n` sets a setting to a decimal number. `+a,b` gives the
    /// directories of included files. Of the other words the first names the source, the second the story.
    ///
    /// Returns the error of the first word that is refused: `Unknown` for a bare `-` or an unknown letter behind it;
    /// `BadSetting` for another word with `$`, an unknown setting, or a number that is not 1 to 1,048,576; `TooMany`
    /// for a third name. Returns `NoSource` where no word is refused and none names a source.
    pub fn read<'a>(words: &[&'a str]) -> Result<Options<'a>, WordFault>
        ensures { result ≡ read_words (map (λ w. w.now) words.now) }
    {
        let mut taken = Taken::none();
        for (place, word) in words.iter().enumerate() {
            taken = taken.and(place, word)?;
        }
        taken.finish()
    }
}

/// Returns the name before the last `.`, where the last part of the name, behind the last `/`, has one.
fn stem_of(name: &str) -> Option<&str>
    ensures { option_copied result ≡ stem name.now }
{
    let (front, extension) = name.rsplit_once('.')?;
    if extension.contains('/') {
        return None;
    }
    Some(front)
}

/// Returns the name of the source's file: the word, with `.inf` where its last part has no extension.
///
/// The only error is that no memory was left.
#[tactic(auto, using(crate::proofs::Stems::source_name_some))]
pub fn source_name(alloc: Global, options: &Options<'_>) -> Result<String, AllocError>
    ensures bytes { IfOk result (λ s. string_bytes s ≡ source_name options.now.source) }
    ensures some { IfOk result (λ s. 0 < length (string_bytes s)) }
{
    let mut name = String::from_str(alloc, options.source)?;
    if stem_of(options.source).is_none() {
        name.push_str(".inf")?;
    }
    Ok(name)
}

/// Returns the ending of the name of a story of a version.
fn extension(scale: Scale) -> &'static str
    ensures { result.now ≡ extension scale }
{
    match scale {
        Scale::Four => ".z5",
        Scale::Eight => ".z8",
    }
}

/// Returns the name of the story's file: its word, or else the source's word with `.z5`, or where letters choose version 8 with `.z8`, in
/// place of the extension of its last part.
///
/// The only error is that no memory was left.
pub fn story_name(alloc: Global, options: &Options<'_>) -> Result<String, AllocError>
    ensures { IfOk result (λ s. string_bytes s ≡ story_name options.now) }
{
    if let Some(word) = options.story {
        return String::from_str(alloc, word);
    }
    let front = stem_of(options.source).unwrap_or(options.source);
    let mut name = String::from_str(alloc, front)?;
    name.push_str(extension(options.letters.scale()))?;
    Ok(name)
}
