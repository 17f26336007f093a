//! Texts, their items and their bytes.
use inf_test_lines::{Digits, add_runs, debugged, number_or, shown, word};
use inf_text::{
    Abbreviations, CharSet, Mode, Text, TextFault, TextItem, Zscii, dict_word, pack, packed_len,
    read_text, source_char,
};
use percent_encoding::percent_decode;
use std::alloc::{AllocError, Global};

/// A question about a text, a byte or a number.
#[derive(Clone, Copy)]
pub(crate) enum TextRow {
    Pack,
    Count,
    Items,
    Word,
    Char,
    Zscii,
}

/// Returns the character set of a line, or ISO Latin-1.
fn set_of(line: &str) -> CharSet {
    match word(line, 1) {
        "ascii" => CharSet::Ascii,
        _ => CharSet::Latin1,
    }
}

/// Returns the mode with this name, or that of texts.
pub(crate) fn mode_of(name: &str) -> Mode {
    match name {
        "quote" => Mode::Quote,
        "abbreviation" => Mode::Abbreviation,
        _ => Mode::Text,
    }
}

/// Returns the bytes of a word, in which `%` and two digits are one byte, some times.
pub(crate) fn bytes_of(alloc: Global, word: &str, count: usize) -> Result<Vec<u8>, AllocError> {
    let mut bytes = Vec::new(alloc);
    for _ in 0..count {
        percent_decode(word.as_bytes()).append_to(&mut bytes)?;
    }
    Ok(bytes)
}

/// Returns the code of a character, or 256 and the number of a string variable.
fn number_of(item: TextItem) -> u16 {
    match item {
        TextItem::Character(character) => u16::from(character.code()),
        TextItem::Variable(number) => 256 + u16::from(number),
    }
}

/// Returns the items of a text in words.
pub(crate) fn told_items(alloc: Global, text: &Text) -> Result<String, AllocError> {
    let mut told = String::from_str(alloc, "items")?;
    for item in text.as_slice() {
        told.push_str(format!(in alloc; " {}", number_of(*item))?.as_str())?;
    }
    Ok(told)
}

/// Returns bytes in words, two by two.
fn told_bytes(alloc: Global, bytes: &[u8]) -> Result<String, AllocError> {
    let mut pairs = Vec::new(alloc);
    for pair in bytes.chunks_exact(2) {
        pairs.push(u16::from_be_bytes([pair[0], pair[1]]))?;
    }
    let mut told = String::from_str(alloc, "bytes")?;
    add_runs(alloc, &mut told, Digits::Four, pairs.as_slice())?;
    Ok(told)
}

/// Returns a packed text in words: the length that is told beforehand, and its bytes.
pub(crate) fn told_packed(
    alloc: Global,
    text: &Text,
    abbreviations: Option<&Abbreviations>,
) -> Result<String, AllocError> {
    let length = packed_len(text, abbreviations);
    let packed = pack(alloc, text, abbreviations)?;
    let bytes = told_bytes(alloc, packed.as_slice())?;
    format!(in alloc; "length {length}, {bytes}")
}

/// Returns the text of a line, which is repeated where there is a count.
fn text_in(alloc: Global, line: &str) -> Result<Result<Text, TextFault>, AllocError> {
    let bytes = bytes_of(alloc, word(line, 2), number_or(line, 3, 1))?;
    Ok(read_text(alloc, bytes.as_slice(), set_of(line), Mode::Text))
}

/// Returns the answer to a line that asks for the number of items.
fn counted(alloc: Global, line: &str) -> Result<String, AllocError> {
    match text_in(alloc, line)? {
        Ok(text) => shown(alloc, &text.len()),
        Err(fault) => debugged(alloc, &fault),
    }
}

/// Returns the answer to a line that packs a text.
fn packed(alloc: Global, line: &str) -> Result<String, AllocError> {
    match text_in(alloc, line)? {
        Ok(text) => told_packed(alloc, &text, None),
        Err(fault) => debugged(alloc, &fault),
    }
}

/// Returns the answer to a line that asks for items.
fn items(alloc: Global, line: &str) -> Result<String, AllocError> {
    let bytes = bytes_of(alloc, word(line, 3), 1)?;
    match read_text(
        alloc,
        bytes.as_slice(),
        set_of(line),
        mode_of(word(line, 2)),
    ) {
        Ok(text) => told_items(alloc, &text),
        Err(fault) => debugged(alloc, &fault),
    }
}

/// Returns the answer to a line that asks for a dictionary word.
fn told_word(alloc: Global, line: &str) -> Result<String, AllocError> {
    let bytes = bytes_of(alloc, word(line, 1), 1)?;
    match read_text(alloc, bytes.as_slice(), CharSet::Ascii, Mode::Quote) {
        Ok(text) => told_bytes(alloc, &dict_word(&text)),
        Err(fault) => debugged(alloc, &fault),
    }
}

/// Returns the answer to a line that asks for the code of a byte.
fn told_char(alloc: Global, line: &str) -> Result<String, AllocError> {
    let byte = (number_or(line, 2, 0) % 256) as u8;
    debugged(alloc, &source_char(byte, set_of(line)).map(Zscii::code))
}

/// Returns the answer to a line that asks for the code of a number.
fn told_zscii(alloc: Global, line: &str) -> Result<String, AllocError> {
    let number: u32 = word(line, 1).parse().unwrap_or(0);
    debugged(alloc, &Zscii::new(number).map(Zscii::code))
}

/// Returns the answer to a line about texts.
pub(crate) fn answer(alloc: Global, row: TextRow, line: &str) -> Result<String, AllocError> {
    match row {
        TextRow::Pack => packed(alloc, line),
        TextRow::Count => counted(alloc, line),
        TextRow::Items => items(alloc, line),
        TextRow::Word => told_word(alloc, line),
        TextRow::Char => told_char(alloc, line),
        TextRow::Zscii => told_zscii(alloc, line),
    }
}
