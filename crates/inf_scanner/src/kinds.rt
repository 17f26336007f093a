//! The kind of a token, once its bytes are known.
ghost use Rattle.std.specs.Prelude.{◌≡◌, ◌<◌, ◌≤◌, ◌+◌, ◌*◌, true, IsErr, IsOk, IfOk, IfSome};
ghost use Rattle.std.specs.List.{list_all};
ghost use Rattle.inf_characters.specs.Reading.{is_plain};
ghost use Rattle.inf_scanner.specs.Scanning.{is_quoted};
ghost use Rattle.inf_scanner.specs.Kinds.{digit_of, kind_of, number_of, quote_kind, quoted_kind, refusal, signed_kind, text_kind};
ghost use Rattle.inf_scanner.specs.Kinds.{value_from, value_of, word_of};

use crate::scanner::Ending;
use crate::spelling::Spelling;
use crate::tokens::{BadToken, DictionaryWord, TokenKind};
use inf_text::{CharSet, Mode, Text, TextFault, TextItem, are_plain, dict_word, read_text};
use std::alloc::{AllocError, Global};

/// The sign at the end of a quote.
#[derive(Clone, Copy)]
enum Sign {
    None,
    /// The word ends with `//`.
    Single,
    /// The word ends with `//p`.
    Plural,
}

/// Returns the value of a digit in base 2, 10 or 16, if the byte is one.
fn digit_of(base: u32, byte: u8) -> Option<u32>
    ensures value { result ≡ digit_of base byte }
    ensures small { IfSome result (λ d. d < 16) }
{
    match byte {
        b'0' | b'1' => Some(u32::from(byte - b'0')),
        b'2'..=b'9' if base > 2 => Some(u32::from(byte - b'0')),
        b'a'..=b'f' if base > 10 => Some(u32::from(byte - b'a') + 10),
        b'A'..=b'F' if base > 10 => Some(u32::from(byte - b'A') + 10),
        _ => None,
    }
}

/// Returns the number that digits write in base 2, 10 or 16, if there are any, all are digits, and it is at most 65535.
fn value_of(base: u32, digits: &[u8]) -> Option<u16>
    requires { base ≤ 16 }
    ensures { result ≡ value_of base digits.now }
{
    if digits.is_empty() {
        return None;
    }
    let mut value: u32 = 0;
    for byte in digits {
        value = value * base + digit_of(base, *byte)?;
        if value > 65535 {
            return None;
        }
    }
    Some(value as u16)
}

/// Returns the number that a run spells, if it is one: decimal, hexadecimal behind `$`, or binary behind `$$`.
fn number_of(run: &[u8]) -> Option<u16>
    ensures { result ≡ number_of run.now }
{
    match run {
        [b'$', b'$', digits @ ..] => value_of(2, digits),
        [b'$', digits @ ..] => value_of(16, digits),
        _ => value_of(10, run),
    }
}

/// Returns the kind of a text or a quote that cannot be read; fails where memory ran out.
fn refused(fault: TextFault) -> Result<TokenKind, AllocError>
    ensures { result ≡ refusal fault }
{
    match fault {
        TextFault::UnknownEscape => Ok(TokenKind::Bad(BadToken::UnknownEscape)),
        TextFault::NoZscii => Ok(TokenKind::Bad(BadToken::NoZscii)),
        TextFault::BadCode => Ok(TokenKind::Bad(BadToken::BadCode)),
        TextFault::Memory => Err(AllocError),
    }
}

/// Returns the kind of a token with these bytes between double quotes. Most texts are plain, which are read without more.
fn text_kind(alloc: Global, set: CharSet, bytes: &[u8]) -> Result<TokenKind, AllocError>
    ensures ok { IfOk result (λ kind. kind ≡ text_kind set bytes.now) }
    ensures plain { list_all is_plain bytes.now ≡ true → IsOk result }
{
    if are_plain(bytes) {
        return Ok(TokenKind::Text);
    }
    let Err(fault) = read_text(alloc, bytes, set, Mode::Text) else {
        return Ok(TokenKind::Text);
    };
    refused(fault)
}

fn word_of(text: &Text, is_plural: bool) -> TokenKind
    ensures { result ≡ word_of is_plural text.now }
{
    TokenKind::Word(DictionaryWord {
        text: dict_word(text),
        is_plural,
    })
}

/// Returns the kind of a quote with this text, by the sign behind it: a single character without a sign is itself.
fn quoted_kind(text: &Text, sign: Sign) -> TokenKind
    ensures { result ≡ quoted_kind sign text.now }
{
    match (sign, text.as_slice()) {
        (Sign::None, [TextItem::Character(code)]) => TokenKind::Char(*code),
        (Sign::Plural, _) => word_of(text, true),
        _ => word_of(text, false),
    }
}

/// Returns the kind of a quote with these bytes, which has this sign at its end.
fn signed_kind(
    alloc: Global,
    set: CharSet,
    bytes: &[u8],
    sign: Sign,
) -> Result<TokenKind, AllocError>
    ensures ok { IfOk result (λ kind. kind ≡ signed_kind set sign bytes.now) }
{
    match read_text(alloc, bytes, set, Mode::Quote) {
        Ok(text) => Ok(quoted_kind(&text, sign)),
        Err(fault) => refused(fault),
    }
}

/// Returns the kind of a token with these bytes between single quotes: the sign `//` or `//p` at their end makes a word of them.
fn quote_kind(alloc: Global, set: CharSet, bytes: &[u8]) -> Result<TokenKind, AllocError>
    ensures ok { IfOk result (λ kind. kind ≡ quote_kind set bytes.now) }
{
    if bytes.is_empty() {
        return Ok(TokenKind::Bad(BadToken::EmptyQuote));
    }
    if let Some(front) = bytes.strip_suffix(b"//p") {
        return signed_kind(alloc, set, front, Sign::Plural);
    }
    if let Some(front) = bytes.strip_suffix(b"//") {
        return signed_kind(alloc, set, front, Sign::Single);
    }
    signed_kind(alloc, set, bytes, Sign::None)
}

/// Returns the kind of a token, by its ending and its bytes. Only a quote, and a text that is not plain, take memory.
#[inline(always)]
pub fn kind_of(
    alloc: Global,
    set: CharSet,
    ending: Ending,
    spelling: &Spelling,
) -> Result<TokenKind, AllocError>
    ensures ok { IfOk result (λ kind. kind ≡ kind_of set ending spelling.now) }
    ensures memory { IsErr result → is_quoted ending ≡ true }
    ensures plain { ending ≡ Ending.Text → list_all is_plain spelling.now.bytes ≡ true → IsOk result }
{
    let is_cut = spelling.is_cut();
    match ending {
        Ending::End => Ok(TokenKind::End),
        Ending::Unfit => Ok(TokenKind::Bad(BadToken::Unfit)),
        Ending::Mark(mark) => Ok(TokenKind::Mark(mark)),
        Ending::Run(false) if is_cut => Ok(TokenKind::Bad(BadToken::LongName)),
        Ending::Run(false) => Ok(TokenKind::Name),
        Ending::Run(true) if is_cut => Ok(TokenKind::Bad(BadToken::Number)),
        Ending::Run(true) => match number_of(spelling.as_slice()) {
            Some(number) => Ok(TokenKind::Number(number)),
            None => Ok(TokenKind::Bad(BadToken::Number)),
        },
        _ if is_cut => Ok(TokenKind::Bad(BadToken::TooLong)),
        Ending::Unclosed => Ok(TokenKind::Bad(BadToken::Unclosed)),
        Ending::Text => text_kind(alloc, set, spelling.as_slice()),
        Ending::Quote => quote_kind(alloc, set, spelling.as_slice()),
    }
}
