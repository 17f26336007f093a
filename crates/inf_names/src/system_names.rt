//! The names that the language has from the start.
ghost use Rattle.std.specs.Prelude.{◌≡◌, get_or};
ghost use Rattle.std.specs.Char.{to_ascii_lowercase};
ghost use Rattle.inf_names.specs.SystemNames.{ends_of, has_ends, has_name, is_known, may_be_known, meaning_of, name_of, named};
ghost use Rattle.inf_names.specs.SystemNames.{system_meaning, system_names};

use crate::meanings::{Function, Meaning};

/// A name that the language has from the start (Inform Designer's Manual, fourth edition).
#[derive(Clone, Copy)]
pub enum SystemName {
    True,
    False,
    Nothing,
    Null,
    WordSize,
    TargetZcode,
    Name,
    Class,
    Object,
    Routine,
    String,
    Child,
    Parent,
    Sibling,
    Children,
    Random,
    Indirect,
    OwnObject,
    Sender,
    SwitchVariable,
    TemporaryGlobal,
    /// The name `DEBUG`, which is there only where the words of the command ask for debugging.
    Debug,
}

const SYSTEM_NAMES: [SystemName; 22] = [
    SystemName::True,
    SystemName::False,
    SystemName::Nothing,
    SystemName::Null,
    SystemName::WordSize,
    SystemName::TargetZcode,
    SystemName::Name,
    SystemName::Class,
    SystemName::Object,
    SystemName::Routine,
    SystemName::String,
    SystemName::Child,
    SystemName::Parent,
    SystemName::Sibling,
    SystemName::Children,
    SystemName::Random,
    SystemName::Indirect,
    SystemName::OwnObject,
    SystemName::Sender,
    SystemName::SwitchVariable,
    SystemName::TemporaryGlobal,
    SystemName::Debug,
];

/// Returns the first and last letters of those names that have `size` letters.
fn ends_of(size: usize) -> &'static [(u8, u8)]
    ensures { result.now ≡ ends_of size }
{
    match size {
        4 => &[(b't', b'e'), (b'n', b'l'), (b'n', b'e'), (b's', b'f')],
        5 => &[(b'f', b'e'), (b'c', b's'), (b'c', b'd'), (b'd', b'g')],
        6 => &[
            (b'o', b't'),
            (b's', b'g'),
            (b'p', b't'),
            (b'r', b'm'),
            (b's', b'r'),
        ],
        7 => &[(b'n', b'g'), (b'r', b'e'), (b's', b'g'), (b's', b'r')],
        8 => &[(b'w', b'e'), (b'c', b'n'), (b'i', b't')],
        11 => &[(b't', b'l')],
        12 => &[(b't', b'e')],
        _ => &[],
    }
}

fn has_ends(ends: &[(u8, u8)], first: u8, last: u8) -> bool
    ensures { result ≡ has_ends ends.now first last }
{
    ends.iter().any(|end| end.0 == first && end.1 == last)
}

/// Returns the letter of `name` at `place`, made small: 0 where there is none.
fn letter_at(name: &[u8], place: usize) -> u8
    ensures { result ≡ to_ascii_lowercase (get_or name.now place 0) }
{
    match name.get(place) {
        Some(byte) => byte.to_ascii_lowercase(),
        None => 0,
    }
}

fn may_be_known(name: &[u8]) -> bool
    ensures { result ≡ may_be_known name.now }
{
    let size = name.len();
    let (first, last) = (letter_at(name, 0), letter_at(name, size.saturating_sub(1)));
    has_ends(ends_of(size), first, last)
}

/// Returns all names that the language has from the start.
fn all() -> &'static [SystemName]
    ensures { result.now ≡ system_names }
{
    &SYSTEM_NAMES
}

impl SystemName {
    /// Returns the name of the language that is spelled `name`, in any case. Most other names are known by their size and their ends.
    #[tactic(auto, using(crate::proofs::Unknown::none_named))]
    pub fn by_name(name: &[u8]) -> Option<SystemName>
        ensures { result ≡ named name.now }
    {
        if !may_be_known(name) {
            return None;
        }
        all().iter().copied().find(|known| known.has_name(name))
    }

    fn has_name(self, name: &[u8]) -> bool
        ensures { result ≡ has_name name.now self }
    {
        name.eq_ignore_ascii_case(self.name().as_bytes())
    }

    /// Returns the spelling of this name, in small letters.
    pub fn name(self) -> &'static str
        ensures { result.now ≡ name_of self }
    {
        match self {
            SystemName::True => "true",
            SystemName::False => "false",
            SystemName::Nothing => "nothing",
            SystemName::Null => "null",
            SystemName::WordSize => "wordsize",
            SystemName::TargetZcode => "target_zcode",
            SystemName::Name => "name",
            SystemName::Class => "class",
            SystemName::Object => "object",
            SystemName::Routine => "routine",
            SystemName::String => "string",
            SystemName::Child => "child",
            SystemName::Parent => "parent",
            SystemName::Sibling => "sibling",
            SystemName::Children => "children",
            SystemName::Random => "random",
            SystemName::Indirect => "indirect",
            SystemName::OwnObject => "self",
            SystemName::Sender => "sender",
            SystemName::SwitchVariable => "sw__var",
            SystemName::TemporaryGlobal => "temp_global",
            SystemName::Debug => "debug",
        }
    }

    /// Returns the meaning of this name. The language keeps the last global variables of the Z-machine for itself.
    pub fn meaning(self) -> Meaning
        ensures { result ≡ meaning_of self }
    {
        match self {
            SystemName::True => Meaning::Number(1),
            SystemName::False | SystemName::Nothing => Meaning::Number(0),
            SystemName::TargetZcode | SystemName::Debug => Meaning::Number(0),
            SystemName::Null => Meaning::Number(65535),
            SystemName::WordSize => Meaning::Number(2),
            SystemName::Name => Meaning::Property {
                number: 1,
                is_additive: true,
            },
            SystemName::Class => Meaning::Object(1),
            SystemName::Object => Meaning::Object(2),
            SystemName::Routine => Meaning::Object(3),
            SystemName::String => Meaning::Object(4),
            SystemName::Child => Meaning::Function(Function::Child),
            SystemName::Parent => Meaning::Function(Function::Parent),
            SystemName::Sibling => Meaning::Function(Function::Sibling),
            SystemName::Children => Meaning::Function(Function::Children),
            SystemName::Random => Meaning::Function(Function::Random),
            SystemName::Indirect => Meaning::Function(Function::Indirect),
            SystemName::OwnObject => Meaning::Variable(253),
            SystemName::Sender => Meaning::Variable(252),
            SystemName::SwitchVariable => Meaning::Variable(251),
            SystemName::TemporaryGlobal => Meaning::Variable(255),
        }
    }
}

/// Returns the meaning that `name` has from the start, in any case; `DEBUG` has one only where debugging is on.
pub fn system_meaning(name: &[u8], is_debugging: bool) -> Option<Meaning>
    ensures { result ≡ system_meaning is_debugging name.now }
{
    let known = SystemName::by_name(name)?;
    if is_known(known, is_debugging) {
        Some(known.meaning())
    } else {
        None
    }
}

/// Returns whether the language has a name, with or without debugging.
fn is_known(name: SystemName, is_debugging: bool) -> bool
    ensures { result ≡ is_known is_debugging name }
{
    is_debugging || !matches!(name, SystemName::Debug)
}
