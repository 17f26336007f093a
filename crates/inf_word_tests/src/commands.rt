//! The words of commands and of heads.
use inf_command::command_line::{CommandLine, Options, source_name, story_name};
use inf_command::head::Head;
use inf_settings::setting::Setting;
use inf_test_lines::{debugged, shown, word};
use std::alloc::{AllocError, Global};

/// A question about the words of a command.
#[derive(Clone, Copy)]
pub(crate) enum Matter {
    Refusal,
    Letters,
    Setting,
    Paths,
    Files,
    Head,
}

/// Returns the head that some words make.
fn head_of(words: &str) -> Head {
    let mut head = Head::none();
    for word in words.split('|') {
        head.take(word.as_bytes());
    }
    head
}

/// Returns the words of a command.
fn words_of(alloc: Global, spelled: Option<&str>) -> Result<Vec<&str>, AllocError> {
    let mut words = Vec::new(alloc);
    if let Some(spelled) = spelled {
        for word in spelled.split('|') {
            words.push(word)?;
        }
    }
    Ok(words)
}

/// Returns the number of a setting, by its name.
fn setting(alloc: Global, options: &Options<'_>, name: &str) -> Result<String, AllocError> {
    match Setting::named(name.as_bytes()) {
        Some(setting) => shown(alloc, &options.settings().of(setting)),
        None => String::from_str(alloc, "no setting"),
    }
}

/// Returns the names of the source's file and of the story's.
fn files(alloc: Global, options: &Options<'_>) -> Result<String, AllocError> {
    let source = source_name(alloc, options)?;
    let story = story_name(alloc, options)?;
    format!(in alloc; "{source} {story}")
}

/// Returns what the words of a head and of a command choose.
fn chosen(alloc: Global, options: &Options<'_>) -> Result<String, AllocError> {
    let letters = options.letters();
    let labels = options.settings().of(Setting::Labels);
    let directories = options.directories(alloc)?;
    format!(in alloc;
        "{:?} {} {labels} {:?}",
        letters.scale(),
        letters.ignores(),
        directories.first()
    )
}

/// Returns the answer to a question about words that are not refused.
fn told(
    alloc: Global,
    matter: Matter,
    options: &Options<'_>,
    front: &str,
) -> Result<String, AllocError> {
    match matter {
        Matter::Refusal => String::from_str(alloc, "None"),
        Matter::Letters => format!(in alloc; "{:?} {}", options.set(), options.has_warnings()),
        Matter::Setting => setting(alloc, options, word(front, 1)),
        Matter::Paths => debugged(alloc, &options.directories(alloc)?.as_slice()),
        Matter::Files => files(alloc, options),
        Matter::Head => {
            let head = head_of(front.strip_prefix("head ").unwrap_or(""));
            chosen(alloc, &options.with_head(&head))
        }
    }
}

/// Returns the answer to a line about the words of a command.
pub(crate) fn answer(alloc: Global, matter: Matter, line: &str) -> Result<String, AllocError> {
    let (front, spelled) = match line.split_once(" : ") {
        Some((front, spelled)) => (front, Some(spelled)),
        None => (line, None),
    };
    let words = words_of(alloc, spelled)?;
    match CommandLine::read(words.as_slice()) {
        Ok(options) => told(alloc, matter, &options, front),
        Err(fault) => debugged(alloc, &Some(fault)),
    }
}
