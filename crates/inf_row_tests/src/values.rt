//! The values that words spell.
use inf_area::{Target, Value};
use inf_test_lines::{number, number_at, six_bytes};

/// Returns the byte at a place of a command: a number, without what is over 255 of it.
pub(crate) fn byte_at(command: &str, place: usize) -> u8 {
    (number_at(command, place) % 256) as u8
}

/// Returns the pair of bytes at a place of a command: a number, without what is over 65535 of it.
pub(crate) fn pair_at(command: &str, place: usize) -> u16 {
    (number_at(command, place) % 65_536) as u16
}

/// Returns the value that a word gives: the number of a name, the text of a dictionary word, or a known number.
pub(crate) fn value_of(word: &str) -> Value {
    if let Some(name) = word.strip_prefix("n") {
        return Value::Later(Target::Name(number(name)));
    }
    match word.strip_prefix("w") {
        Some(text) => Value::Later(Target::Word(six_bytes(text))),
        None => Value::Known(word.parse().unwrap_or(0)),
    }
}
