//! The escapes of a text: the pieces that begin with `@`.
ghost use Rattle.std.specs.Prelude.{◌≡◌, ◌<◌, ◌≤◌, ◌+◌, IfOk, IsTrue, length};
ghost use Rattle.inf_characters.specs.{Items.IsItem, Numbers.IsPieceOf};
ghost use Rattle.inf_characters.specs.Reading.{accent_piece, closes, code_piece, escape_piece, number_from, one, pair_from, spelled};
ghost use Rattle.inf_characters.specs.Reading.{stroke, unicode_piece, variable_piece};

use crate::characters::{FIRST_ACCENTED, Zscii, unicode_char};
use crate::numbers::{digit_of, number_at};
use crate::reading::{Mode, Piece, TextFault};
use crate::texts::TextItem;

/// The number of string variables.
const VARIABLES: u32 = 32;

/// The braces round the number of a Unicode character.
const OPENING_BRACE: u8 = b'{';

const CLOSING_BRACE: u8 = b'}';

/// The two characters that spell each of the codes 155 to 223 behind `@` (Designer's Manual, table 2).
const SPELLINGS: &[u8; 138] =
    b":a:o:u:A:O:Uss>><<:e:i:y:E:I'a'e'i'o'u'y'A'E'I'O'U'Y`a`e`i`o`u`A`E`I`O`U^a^e^i^o^u^A^E^I^O^U\
        oaoA\\o\\O~a~n~o~A~N~OaeAEcccCthetThEtLLoeOE!!??";

/// Returns the piece that `@` begins, where `bytes` come behind it, or its fault.
#[tactic(auto, unfolding(crate::specs::Reading::escape_piece))]
pub(crate) fn escape_piece(mode: Mode, bytes: &[u8]) -> Result<Piece, TextFault>
    ensures value { result ≡ escape_piece mode bytes.now }
    ensures piece { IfOk result (IsPieceOf bytes.now) }
{
    let [first, rest @ ..] = bytes else {
        return Err(TextFault::UnknownEscape);
    };
    match *first {
        b'@' => code_piece(rest),
        OPENING_BRACE => unicode_piece(rest),
        first => match digit_of(10, first) {
            Some(tens) => variable_piece(mode, tens, rest),
            None => accent_piece(first, rest),
        },
    }
}

/// Returns the piece of one `item` that has `behind` bytes behind its first.
fn one(item: TextItem, behind: usize) -> Piece
    ensures { result ≡ one item behind }
{
    Piece {
        item,
        count: 1,
        behind,
        is_mark: false,
    }
}

fn code_piece(bytes: &[u8]) -> Result<Piece, TextFault>
    ensures value { result ≡ code_piece (number_from 10 0 0 bytes.now) }
    ensures piece { IfOk result (λ p. (p.behind ≤ length bytes.now + 1) × IsItem p.item) }
{
    let (count, code) = number_at(10, bytes);
    if count == 0 {
        return Err(TextFault::UnknownEscape);
    }
    match Zscii::new(code) {
        Some(character) => Ok(one(TextItem::Character(character), 1 + count)),
        None => Err(TextFault::BadCode),
    }
}

#[tactic(auto, using(crate::proofs::Capped::zscii_of_capped))]
fn unicode_piece(bytes: &[u8]) -> Result<Piece, TextFault>
    ensures value { result ≡ unicode_piece bytes.now (number_from 16 0 0 bytes.now) }
    ensures piece { IfOk result (λ p. (p.behind ≤ length bytes.now + 1) × IsItem p.item) }
{
    let (count, character) = number_at(16, bytes);
    if count == 0 || !closes(&bytes[count..]) {
        return Err(TextFault::UnknownEscape);
    }
    match unicode_char(character) {
        Some(code) => Ok(one(TextItem::Character(code), 2 + count)),
        None => Err(TextFault::NoZscii),
    }
}

fn closes(bytes: &[u8]) -> bool
    ensures value { result ≡ closes bytes.now }
    ensures room { IsTrue result → 0 < length bytes.now }
{
    matches!(bytes, [CLOSING_BRACE, ..])
}

fn variable_piece(mode: Mode, tens: u32, bytes: &[u8]) -> Result<Piece, TextFault>
    requires { tens < 16 }
    ensures value { result ≡ variable_piece mode tens bytes.now }
    ensures piece { IfOk result (λ p. (p.behind ≤ length bytes.now + 1) × IsItem p.item) }
{
    match mode {
        Mode::Quote | Mode::Abbreviation => return Err(TextFault::UnknownEscape),
        Mode::Text => {}
    }
    let [second, ..] = bytes else {
        return Err(TextFault::UnknownEscape);
    };
    match digit_of(10, *second) {
        None => Err(TextFault::UnknownEscape),
        Some(units) if 10 * tens + units < VARIABLES => {
            let number = 10 * tens + units;
            Ok(one(TextItem::Variable(number as u8), 2))
        }
        Some(_) => Err(TextFault::BadCode),
    }
}

fn accent_piece(first: u8, bytes: &[u8]) -> Result<Piece, TextFault>
    ensures value { result ≡ accent_piece first bytes.now }
    ensures piece { IfOk result (λ p. (p.behind ≤ length bytes.now + 1) × IsItem p.item) }
{
    let [second, ..] = bytes else {
        return Err(TextFault::UnknownEscape);
    };
    match accent_code(first, *second) {
        Some(code) => Ok(one(TextItem::Character(code), 2)),
        None => Err(TextFault::UnknownEscape),
    }
}

fn stroke(byte: u8) -> u8
    ensures { result ≡ stroke byte }
{
    if byte == b'/' { b'\\' } else { byte }
}

/// Returns the code of the letter that is spelled by `mark` and `letter`.
fn accent_code(mark: u8, letter: u8) -> Option<Zscii>
    ensures { result ≡ spelled mark letter }
{
    pair_code(SPELLINGS, stroke(mark), letter)
}

/// Returns the place of the pair of `a` and `b` among the pairs of `table`, counted from 155 on.
fn pair_code(table: &[u8], a: u8, b: u8) -> Option<Zscii>
    requires { length table.now ≤ 138 }
    ensures { result ≡ pair_from a b 155 table.now }
{
    let mut code = FIRST_ACCENTED;
    let mut pairs = table;
    while let Some((x, tail)) = pairs.split_first() {
        let Some((y, rest)) = tail.split_first() else {
            return None;
        };
        if *x == a && *y == b {
            return Some(Zscii::from_code(code));
        }
        code += 1;
        pairs = rest;
    }
    None
}
