//! The values that the words of a script spell.
use inf_area::{AreaName, SystemConstant, Target, Value};
use inf_link::{HeaderFields, Scale};
use inf_test_lines::{number_or, six_bytes, word};

/// Returns the part of `word` at a place, or an empty one.
pub(crate) fn part(word: &str, between: char, place: usize) -> &str {
    word.split(between).nth(place).unwrap_or("")
}

/// Returns the area with this name.
pub(crate) fn area(name: &str) -> Option<AreaName> {
    Some(match name {
        "LowStrings" => AreaName::LowStrings,
        "Abbreviations" => AreaName::Abbreviations,
        "PropertyDefaults" => AreaName::PropertyDefaults,
        "Objects" => AreaName::Objects,
        "PropertyTables" => AreaName::PropertyTables,
        "ClassNumbers" => AreaName::ClassNumbers,
        "IndividualTables" => AreaName::IndividualTables,
        "Globals" => AreaName::Globals,
        "Arrays" => AreaName::Arrays,
        "Grammar" => AreaName::Grammar,
        "Actions" => AreaName::Actions,
        "ParsingRoutines" => AreaName::ParsingRoutines,
        "Dictionary" => AreaName::Dictionary,
        "Code" => AreaName::Code,
        "Strings" => AreaName::Strings,
        _ => return None,
    })
}

/// Returns the constant of the story as a whole with this name.
fn constant(name: &str) -> Option<SystemConstant> {
    Some(match name {
        "GrammarTable" => SystemConstant::GrammarTable,
        "ActionsTable" => SystemConstant::ActionsTable,
        "PreactionsTable" => SystemConstant::PreactionsTable,
        "DictionaryTable" => SystemConstant::DictionaryTable,
        "ClassesTable" => SystemConstant::ClassesTable,
        "GlobalsArray" => SystemConstant::GlobalsArray,
        "ReadableMemoryOffset" => SystemConstant::ReadableMemoryOffset,
        "CodeOffset" => SystemConstant::CodeOffset,
        "StringsOffset" => SystemConstant::StringsOffset,
        "HighestObjectNumber" => SystemConstant::HighestObjectNumber,
        _ => return None,
    })
}

/// Returns the target that a word spells behind its mark.
fn target_in(spelled: &str) -> Option<Target> {
    let second = part(spelled, ':', 1);
    let place = part(spelled, ':', 2);
    Some(match part(spelled, ':', 0) {
        "Name" => Target::Name(number_or(second, 0, 0)),
        "Part" => Target::Part(area(second)?, number_or(place, 0, 0)),
        "Word" => Target::Word(six_bytes(second)),
        "System" => Target::System(constant(second)?),
        name => Target::Place(area(name)?, number_or(second, 0, 0)),
    })
}

/// Returns the target that a word spells behind its mark, or name 65535 where it spells none.
pub(crate) fn target(spelled: &str) -> Target {
    target_in(spelled).unwrap_or(Target::Name(65_535))
}

/// Returns the value of a name, by its spelling.
pub(crate) fn value(spelled: &str) -> Value {
    match spelled.strip_prefix('@') {
        Some(later) => Value::Later(target(later)),
        None => {
            let digits = spelled.strip_prefix('#').unwrap_or("");
            Value::Known(digits.parse().unwrap_or(0))
        }
    }
}

/// Returns the bytes of a serial number.
fn serial_of(digits: &str) -> [u8; 6] {
    let mut serial = [0; 6];
    for (byte, digit) in serial.iter_mut().zip(digits.bytes()) {
        *byte = digit;
    }
    serial
}

/// Returns the fields of a header that stand behind the first word of a line: version, release and serial number.
pub(crate) fn fields(line: &str) -> HeaderFields {
    HeaderFields {
        release: word(line, 2).parse().unwrap_or(0),
        serial: serial_of(word(line, 3)),
        scale: if word(line, 1) == "8" {
            Scale::Eight
        } else {
            Scale::Four
        },
    }
}
