//! ZSCII and the character sets of a source.
ghost use Rattle.std.specs.Prelude.{◌≡◌, ◌==◌, ◌<◌, IfSome, IsTrue, length, if◌then◌else◌};
ghost use Rattle.std.specs.List.{position_from};
ghost use Rattle.inf_characters.specs.Characters.{is_code, is_line_end, is_white, zscii_of, zscii_of_unicode};

use std::marker::Model;

/// A character code of the Z-machine that a text may have: 13 (the new line), 32 to 126 (ASCII) and
/// 155 to 223 (Z-Machine Standard 1.1, section 3.8). Contracts see the number.
#[derive(Clone, Copy, Debug, PartialEq, Eq)]
pub struct Zscii {
    code: u8,
}

impl Model for Zscii {
    ghost use Rattle.std.specs.Prelude.{ℕ, IsTrue};

    ghost Value = { ℕ };

    ghost use Rattle.inf_characters.specs.Characters.{is_code};

    ghost view = { λ z. z.code };

    ghost invariant = { λ z. IsTrue (is_code z.code) };

    ghost inverse = { λ n. record { code = n } };
}

impl Zscii {
    /// Returns the character of `number`, which is 13, 32 to 126 or 155 to 223; `None` for each other number.
    pub fn new(number: u32) -> Option<Zscii>
        ensures { result ≡ (if is_code number then Some number else None) }
    {
        match number {
            13 | 32..=126 | 155..=223 => Some(Zscii { code: number as u8 }),
            _ => None,
        }
    }

    /// Returns the character of `code`, which is one that a text may have.
    pub(crate) fn from_code(code: u8) -> Zscii
        requires { IsTrue (is_code code) }
        ensures { result ≡ code }
    {
        Zscii { code }
    }

    /// Returns the number of the character: 13, 32 to 126 or 155 to 223.
    pub fn code(self) -> u8
        ensures value { result ≡ self }
        ensures is_code { IsTrue (is_code self) }
    {
        self.code
    }
}

/// The way in which the bytes of a source are read as characters.
#[derive(Clone, Copy, Debug)]
pub enum CharSet {
    /// ASCII: a byte of 128 or more is no character.
    Ascii,
    /// ISO 8859-1: each byte is the Unicode character of its number.
    Latin1,
}

/// The code of the first accented letter.
pub(crate) const FIRST_ACCENTED: u8 = 155;

/// The letters and marks with the codes 155 to 223 (Z-Machine Standard 1.1, section 3.8.5, table 1).
const ACCENTED: [char; 69] = [
    'ä', 'ö', 'ü', 'Ä', 'Ö', 'Ü', 'ß', '\u{bb}', '\u{ab}', 'ë', 'ï', 'ÿ', 'Ë', 'Ï', 'á', 'é', 'í',
    'ó', 'ú', 'ý', 'Á', 'É', 'Í', 'Ó', 'Ú', 'Ý', 'à', 'è', 'ì', 'ò', 'ù', 'À', 'È', 'Ì', 'Ò', 'Ù',
    'â', 'ê', 'î', 'ô', 'û', 'Â', 'Ê', 'Î', 'Ô', 'Û', 'å', 'Å', 'ø', 'Ø', 'ã', 'ñ', 'õ', 'Ã', 'Ñ',
    'Õ', 'æ', 'Æ', 'ç', 'Ç', 'þ', 'ð', 'Þ', 'Ð', '£', 'œ', 'Œ', '¡', '¿',
];

/// Returns the ZSCII code of a byte of a source. A white space byte (tab, line feed, form feed, carriage
/// return and space; under `Latin1` also 160) is a space. `None` for a byte that is no character of the set,
/// and for a character that has no code (Z-Machine Standard 1.1, section 3.8.5).
#[tactic(auto, unfolding(crate::specs::Characters::zscii_of))]
pub fn source_char(byte: u8, set: CharSet) -> Option<Zscii>
    ensures { result ≡ zscii_of set byte }
{
    if is_white(set, byte) {
        return Some(Zscii::from_code(b' '));
    }
    match set {
        CharSet::Ascii if byte > 127 => None,
        CharSet::Ascii | CharSet::Latin1 => unicode_char(u32::from(byte)),
    }
}

/// Returns the ZSCII code of a Unicode character, if it has one.
#[tactic(auto, unfolding(crate::specs::Characters::zscii_of_unicode, crate::specs::Characters::accented))]
pub(crate) fn unicode_char(character: u32) -> Option<Zscii>
    ensures { result ≡ zscii_of_unicode character }
{
    if 32 <= character && character <= 126 {
        return Some(Zscii::from_code(character as u8));
    }
    match accent_place(&ACCENTED, character) {
        Some(place) => Some(Zscii::from_code(FIRST_ACCENTED + place as u8)),
        None => None,
    }
}

/// Returns the place of `character` in `table`, or `None` where the table doesn't have it.
fn accent_place(table: &[char], character: u32) -> Option<usize>
    ensures place { result ≡ position_from (λ x. x == character) 0 table.now }
    ensures within { IfSome result (λ place. place < length table.now) }
{
    table.iter().position(|x| u32::from(*x) == character)
}

/// Returns whether a byte ends a line: line feed and carriage return.
pub fn is_line_end(byte: u8) -> bool
    ensures { result ≡ is_line_end byte }
{
    matches!(byte, b'\n' | b'\r')
}

/// Returns whether a byte is white space: tab, line feed, form feed, carriage return and space, under `Latin1` also 160.
pub fn is_white(set: CharSet, byte: u8) -> bool
    ensures { result ≡ is_white set byte }
{
    match byte {
        b' ' | b'\t' | 12 | b'\n' | b'\r' => true,
        160 => set == CharSet::Latin1,
        _ => false,
    }
}
