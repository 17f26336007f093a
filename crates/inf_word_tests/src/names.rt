//! The names of a source and of the language.
ghost use Rattle.std.specs.Prelude.{◌≡◌};
ghost use Rattle.inf_settings.specs.declared.setting.Setting.{Setting};

use inf_names::hashing::NameHashing;
use inf_names::meanings::Meaning;
use inf_names::symbols::{LONGEST_NAME, Symbols};
use inf_names::system_names::system_meaning;
use inf_settings::bounds::Bounds;
use inf_test_lines::{debugged, number_at, text_of, word};
use std::alloc::{AllocError, Global};
use std::marker::Brand;

/// A command for names.
#[derive(Clone, Copy)]
enum Command {
    /// A declaration at a place, with a meaning.
    Declare(u32, Meaning),
    /// A use at a place.
    Refer(u32),
    Look,
    /// Asks whether a name was declared before some declarations.
    Before(usize),
    UseAt(usize),
    MeaningAt(usize),
    Counts,
    Debugging,
}

/// Returns the place at a place of a command, or 0.
fn place_at(command: &str, place: usize) -> u32 {
    word(command, place).parse().unwrap_or(0)
}

/// Returns the meaning that a word spells.
fn meaning_of(spelled: &str) -> Option<Meaning> {
    let (kind, digits) = spelled.split_once(':')?;
    let number: u16 = digits.parse().unwrap_or(0);
    Some(match kind {
        "number" => Meaning::Number(number),
        "routine" => Meaning::Routine(usize::from(number)),
        "object" => Meaning::Object(number),
        _ => return None,
    })
}

/// Returns the command that a text spells.
fn command_of(command: &str) -> Option<Command> {
    Some(match word(command, 0) {
        "declare" => Command::Declare(place_at(command, 2), meaning_of(word(command, 3))?),
        "refer" => Command::Refer(place_at(command, 2)),
        "look" => Command::Look,
        "before" => Command::Before(number_at(command, 2)),
        "use" => Command::UseAt(number_at(command, 1)),
        "meaning" => Command::MeaningAt(number_at(command, 1)),
        "counts" => Command::Counts,
        "debugging" => Command::Debugging,
        _ => return None,
    })
}

/// Returns the first use with a number: its name and its place.
fn told_use<B: Bounds>(
    alloc: Global,
    names: &Symbols<u32, B>,
    number: usize,
) -> Result<String, AllocError> {
    match names.use_at(number) {
        Some((name, place)) => format!(in alloc; "{} {place}", text_of(name)),
        None => String::from_str(alloc, "none"),
    }
}

/// Carries out a command about a name, and returns the answer.
fn obey<B: Bounds>(
    alloc: Global,
    names: &mut Symbols<u32, B>,
    command: Option<Command>,
    name: &[u8],
) -> Result<String, AllocError> {
    if name.len() > LONGEST_NAME {
        return String::from_str(alloc, "too long");
    }
    match command {
        Some(Command::Declare(place, meaning)) => {
            debugged(alloc, &names.declare(name, place, meaning))
        }
        Some(Command::Refer(place)) => debugged(alloc, &names.refer(name, place)),
        Some(Command::Look) => debugged(alloc, &names.look(name)),
        Some(Command::Before(count)) => debugged(alloc, &names.declared_before(name, count)),
        Some(Command::UseAt(number)) => told_use(alloc, names, number),
        Some(Command::MeaningAt(number)) => debugged(alloc, &names.meaning_at(number)),
        Some(Command::Counts) => debugged(alloc, &(names.len(), names.declared())),
        Some(Command::Debugging) => {
            names.set_debugging(true);
            String::from_str(alloc, "ok")
        }
        None => String::from_str(alloc, "no command"),
    }
}

/// Returns the answers to the commands of a line.
fn answers<B: Bounds>(
    alloc: Global,
    names: &mut Symbols<u32, B>,
    line: &str,
) -> Result<String, AllocError> {
    let mut told = String::from_str(alloc, "names")?;
    for command in line.split(" | ").skip(1) {
        let name = word(command, 1).as_bytes();
        told.push_str(" | ")?;
        told.push_str(obey(alloc, names, command_of(command), name)?.as_str())?;
    }
    Ok(told)
}

/// Returns the answer to a line of names.
pub(crate) fn answer(alloc: Global, line: &str) -> Result<String, AllocError> {
    answer_under::<Brand>(alloc, place_at(line, 1), line.as_bytes())
}

/// Returns the answer to a line of names, of which there may be `limit`.
fn answer_under<B: Bounds>(alloc: Global, limit: u32, line: &[u8]) -> Result<String, AllocError>
    requires { limit ≡ B.most Setting.Symbols }
{
    let mut names = Symbols::<u32, B>::new(alloc, limit, false, NameHashing::new(b""));
    answers(alloc, &mut names, text_of(line))
}

/// Returns the meaning of a name of the language.
pub(crate) fn system(alloc: Global, name: &str, is_debugging: bool) -> Result<String, AllocError> {
    debugged(alloc, &system_meaning(name.as_bytes(), is_debugging))
}
