//! The words and numbers of a line.

/// Returns the text of some bytes, or an empty one where they are not UTF-8.
pub fn text_of(bytes: &[u8]) -> &str {
    str::from_utf8(bytes).unwrap_or("")
}

/// Returns the word of a text at a place, or an empty one.
pub fn word(text: &str, place: usize) -> &str {
    text.split(' ').nth(place).unwrap_or("")
}

/// Returns the number that a word is, or the greatest one where it is none.
pub fn number(word: &str) -> usize {
    word.parse().unwrap_or(usize::MAX)
}

/// Returns the number at a place of a text, or the greatest one where there is none.
pub fn number_at(text: &str, place: usize) -> usize {
    number(word(text, place))
}

/// Returns the number at a place of a text, or `other` where there is none.
pub fn number_or(text: &str, place: usize, other: usize) -> usize {
    word(text, place).parse().unwrap_or(other)
}

/// Returns the number in front of a command, which tells how often it is carried out, and the command behind it.
pub fn repeated(command: &str) -> (usize, &str) {
    let (count, rest) = command.split_once(' ').unwrap_or(("", ""));
    match count.parse() {
        Ok(count) => (count, rest),
        Err(_) => (1, command),
    }
}
