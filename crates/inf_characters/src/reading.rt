//! The way in which the bytes of a source are read as a text.
ghost use Rattle.std.specs.{List.list_all, List.list_any, Result.is_ok};
ghost use Rattle.std.specs.Prelude.{◌≡◌, ◌<◌, ◌≤◌, ◌^◌, ◌∷◌, ◌++◌, IfErr, IfOk, OnOk, length, replicate, false, true};
ghost use Rattle.inf_characters.specs.{Characters.is_line_end, Numbers.IsPieceOf, declared.characters.CharSet.CharSet as Set};
ghost use Rattle.inf_characters.specs.{declared.reading.Mode.Mode as TextMode};
ghost use Rattle.inf_characters.specs.Reading.{Reads, is_new_line_mark, is_plain, meaning, piece_at, spaces, text_of, white_len};

use crate::characters::{CharSet, Zscii, is_line_end, is_white, source_char};
use crate::escapes::escape_piece;
use crate::runs::{push_characters, run_len};
use crate::texts::{Text, TextItem};
use std::alloc::{AllocError, AllocFailed, Global};
use thiserror::Error;

/// The use of a text, which decides what its marks mean.
#[derive(Clone, Copy)]
pub enum Mode {
    /// A text that is printed: `~` is a quotation mark, `^` a new line, and `@nn` a string variable.
    Text,
    /// A quoted word or character: `^` is an apostrophe, and `~` is itself.
    Quote,
    /// The text of an abbreviation: as `Text`, without string variables.
    Abbreviation,
}

/// The reason why a text can't be read.
#[derive(Clone, Copy, Debug, PartialEq, Eq, Drop, Error)]
pub enum TextFault {
    /// An `@` without an escape behind it.
    #[error("unknown escape")]
    UnknownEscape,
    /// A byte, or a character given by number, has no ZSCII code.
    #[error("no ZSCII character")]
    NoZscii,
    /// A code, or the number of a string variable, is out of its range.
    #[error("code out of range")]
    BadCode,
    /// There is too little memory.
    #[error("out of memory")]
    Memory,
}

impl From<AllocError> for TextFault {
    ghost use Rattle.std.specs.Prelude.{◌≡◌};
    ghost use Rattle.inf_characters.specs.declared.reading.TextFault.TheVariants.{Memory};

    ghost from_gives = { λ _ e. e ≡ Memory };

    fn from(_e: AllocError) -> TextFault {
        TextFault::Memory
    }
}

impl<T: Drop> From<AllocFailed<T>> for TextFault {
    ghost use Rattle.std.specs.Prelude.{◌≡◌};
    ghost use Rattle.inf_characters.specs.declared.reading.TextFault.TheVariants.{Memory};

    ghost from_gives = { λ _ e. e ≡ Memory };

    fn from(_e: AllocFailed<T>) -> TextFault {
        TextFault::Memory
    }
}

/// A piece at the front of some bytes of a text: `count` times an item, and the number of bytes that it
/// has behind its first. `is_mark` says whether it is the mark of a new line.
#[derive(Clone, Copy)]
pub(crate) struct Piece {
    pub(crate) item: TextItem,
    pub(crate) count: usize,
    pub(crate) behind: usize,
    pub(crate) is_mark: bool,
}

/// Reads the bytes of a text, without its quotation marks, or returns the fault of the first place that can't be read.
///
/// In each mode `@` begins an escape (an accented letter; `@@` and a code; `@{` and a Unicode number and `}`), and `\` and the white space
/// behind it give nothing. A run of white space with a line end in it is one space, or nothing right behind the mark `^` of a new line;
/// each other white space byte is a space. A run that `\` breaks is two, and the one before it is judged by itself.
///
/// The faults: `UnknownEscape` for an `@` without an escape (for a string variable in `Quote` and `Abbreviation` too), `NoZscii` for a byte
/// or a Unicode number without ZSCII code, `BadCode` for a code other than 13, 32 to 126 and 155 to 223 and for a string variable over 31,
/// and `Memory` where there is too little memory for the text of some front of the bytes, which is not empty then.
pub fn read_text(alloc: Global, bytes: &[u8], set: CharSet, mode: Mode) -> Result<Text, TextFault>
    ensures { Reads set mode bytes.now result }
{
    let mut items = Vec::new(alloc);
    // Most bytes are a character each. Where there is no room for as many items, there may be for the text.
    let _ = items.reserve(bytes.len());
    let mut rest = bytes;
    let mut after_mark = false;
    while let Some((first, tail)) = rest.split_first() {
        let len = run_len(rest);
        if len > 0 {
            push_characters(&mut items, &rest[..len])?;
            rest = &rest[len..];
            after_mark = false;
        } else {
            let piece = piece_at(set, mode, after_mark, *first, tail)?;
            push_times(&mut items, &piece.item, piece.count)?;
            rest = &tail[piece.behind..];
            after_mark = piece.is_mark;
        }
    }
    Ok(Text::from_items(items))
}

/// Returns whether all bytes of a text are ASCII from the space to `~` and none is `@`, as in most
/// texts: they can be read as one then, in each mode and both character sets.
pub fn are_plain(bytes: &[u8]) -> bool
    ensures value { result ≡ list_all is_plain bytes.now }
    ensures reads { result ≡ true → (set : Set) (mode : TextMode) → is_ok (text_of set mode bytes.now) ≡ true }
{
    all_plain(bytes)
}

/// Returns whether all bytes are characters or white space by themselves.
fn all_plain(bytes: &[u8]) -> bool
    ensures { result ≡ list_all is_plain bytes.now }
{
    // The loop goes on behind a byte that is not plain, so that many are looked at at once.
    let mut plain = true;
    for byte in bytes {
        plain = plain & is_plain(*byte);
    }
    plain
}

fn is_plain(byte: u8) -> bool
    ensures { result ≡ is_plain byte }
{
    matches!(byte, b' '..=b'~') && byte != b'@'
}

/// Returns the piece that the byte `first` begins, where `bytes` come behind it; `after_mark` is
/// whether the mark of a new line comes before it.
#[tactic(auto, unfolding(crate::specs::Reading::piece_at))]
fn piece_at(
    set: CharSet,
    mode: Mode,
    after_mark: bool,
    first: u8,
    bytes: &[u8],
) -> Result<Piece, TextFault>
    ensures value { result ≡ piece_at set mode after_mark first bytes.now }
    ensures piece { IfOk result (IsPieceOf bytes.now) }
{
    if first == b'@' {
        return escape_piece(mode, bytes);
    }
    if first == b'\\' {
        return Ok(spaces(0, white_len(set, bytes)));
    }
    if is_white(set, first) {
        let behind = white_len(set, bytes);
        let count = run_spaces(after_mark, first, &bytes[..behind]);
        return Ok(spaces(count, behind));
    }
    match source_char(first, set) {
        None => Err(TextFault::NoZscii),
        Some(code) => Ok(Piece {
            item: TextItem::Character(meaning(mode, code)),
            count: 1,
            behind: 0,
            is_mark: is_new_line_mark(mode, first),
        }),
    }
}

/// Returns a piece of `count` spaces, which has `behind` bytes behind its first.
fn spaces(count: usize, behind: usize) -> Piece
    ensures { result ≡ record { item = TextItem.Character 32; count = count; behind = behind; is_mark = false } }
{
    Piece {
        item: TextItem::Character(Zscii::from_code(b' ')),
        count,
        behind,
        is_mark: false,
    }
}

/// Returns the number of spaces that a run of white space, `first` and `bytes`, is read as;
/// `after_mark` is whether the mark of a new line comes before it.
fn run_spaces(after_mark: bool, first: u8, bytes: &[u8]) -> usize
    requires { length bytes.now < 2 ^ 63 }
    ensures { result ≡ spaces after_mark (first ∷ bytes.now) }
{
    let has_line_end = is_line_end(first) || has_line_end(bytes);
    if !has_line_end {
        1 + bytes.len()
    } else if after_mark {
        0
    } else {
        1
    }
}

/// Returns whether one of `bytes` ends a line.
fn has_line_end(bytes: &[u8]) -> bool
    ensures { result ≡ list_any is_line_end bytes.now }
{
    bytes.iter().any(|byte| is_line_end(*byte))
}

fn white_len(set: CharSet, bytes: &[u8]) -> usize
    ensures value { result ≡ white_len set bytes.now }
    ensures within { result ≤ length bytes.now }
{
    for (i, byte) in bytes.iter().enumerate() {
        if !is_white(set, *byte) {
            return i;
        }
    }
    bytes.len()
}

/// Returns the character that the typed character `code` gives in a text of this mode.
fn meaning(mode: Mode, code: Zscii) -> Zscii
    ensures { result ≡ meaning mode code }
{
    match (mode, code.code()) {
        (Mode::Quote, b'^') => Zscii::from_code(b'\''),
        (Mode::Text | Mode::Abbreviation, b'^') => Zscii::from_code(13),
        (Mode::Text | Mode::Abbreviation, b'~') => Zscii::from_code(b'"'),
        _ => code,
    }
}

fn is_new_line_mark(mode: Mode, byte: u8) -> bool
    ensures { result ≡ is_new_line_mark mode byte }
{
    mode != Mode::Quote && byte == b'^'
}

/// Appends `item` to `items`, `count` times.
fn push_times(items: &mut Vec<TextItem>, item: &TextItem, count: usize) -> Result<(), TextFault>
    ensures ok { OnOk result (items.new.items ≡ items.old.items ++ replicate count item.now) }
    ensures err { IfErr result (λ fault. (fault ≡ TextFault.Memory) × (0 < count)) }
{
    for _done in 0..count {
        items.push(*item)?;
    }
    Ok(())
}
