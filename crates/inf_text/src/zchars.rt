//! Z-characters and the words that they are packed in.
ghost use Rattle.std.specs.Prelude.{◌≡◌, ◌==◌, ◌<◌, ◌≤◌, IfSome, length, ◌∷◌, []};
ghost use Rattle.std.specs.List.{position_from};
ghost use Rattle.inf_characters.specs.Items.{IsItem};
ghost use Rattle.inf_text.specs.Packing.{character_zs, item_zs, abbreviation_zs, zs_list, word, AreZs};

use inf_characters::{TextItem, Zscii};

/// The characters of alphabet A2 on the Z-characters 8 to 31 (Z-Machine Standard 1.1, section 3.5.3).
const PUNCTUATION: &[u8; 24] = b"0123456789.,!?_#'\"/\\-:()";

/// The one to four Z-characters of an item.
#[derive(Clone, Copy)]
pub(crate) enum ZChars {
    One(u8),
    Two(u8, u8),
    Four(u8, u8, u8, u8),
}

impl ZChars {
    /// Returns the number of Z-characters.
    pub(crate) fn len(self) -> usize
        ensures value { result ≡ length (zs_list self) }
        ensures few { result ≤ 4 }
    {
        match self {
            ZChars::One(_) => 1,
            ZChars::Two(_, _) => 2,
            ZChars::Four(_, _, _, _) => 4,
        }
    }
}

/// Returns the Z-characters of an item.
#[inline]
pub(crate) fn item_zs(item: TextItem) -> ZChars
    requires { IsItem item }
    ensures value { zs_list result ≡ item_zs item }
    ensures small { AreZs (zs_list result) }
{
    match item {
        TextItem::Character(code) => character_zs(code),
        TextItem::Variable(number) => ZChars::Two(1, number),
    }
}

/// Returns the Z-characters of a code. Most are small letters and spaces.
#[tactic(auto, unfolding(crate::specs::Packing::character_zs))]
#[inline]
fn character_zs(code: Zscii) -> ZChars
    ensures value { zs_list result ≡ character_zs code }
    ensures small { AreZs (zs_list result) }
{
    let code = code.code();
    match code {
        b'a'..=b'z' => ZChars::One(code - 91),
        b' ' => ZChars::One(0),
        _ => rarer_zs(code),
    }
}

/// Returns the Z-characters of a code, like `character_zs`, but stands apart, so that what is inlined there stays small.
#[tactic(auto, unfolding(crate::specs::Packing::character_zs, crate::specs::Packing::punctuation))]
#[inline(never)]
fn rarer_zs(code: u8) -> ZChars
    ensures value { zs_list result ≡ character_zs code }
    ensures small { AreZs (zs_list result) }
{
    match code {
        b' ' => ZChars::One(0),
        b'a'..=b'z' => ZChars::One(code - 91),
        b'A'..=b'Z' => ZChars::Two(4, code - 59),
        13 => ZChars::Two(5, 7),
        _ => match punctuation_place(PUNCTUATION, code) {
            Some(place) => ZChars::Two(5, 8 + place as u8),
            None => ZChars::Four(5, 6, code / 32, code % 32),
        },
    }
}

/// Returns the place of a code among others.
fn punctuation_place(table: &[u8], code: u8) -> Option<usize>
    ensures place { result ≡ position_from (λ x. x == code) 0 table.now }
    ensures within { IfSome result (λ place. place < length table.now) }
{
    table.iter().position(|x| *x == code)
}

/// Returns the Z-characters of the abbreviation that was declared as this number.
#[inline]
pub(crate) fn abbreviation_zs(number: usize) -> ZChars
    requires { number < 64 }
    ensures value { zs_list result ≡ abbreviation_zs number }
    ensures small { AreZs (zs_list result) }
{
    let entry = 32 + number as u8;
    ZChars::Two(entry / 32 + 1, entry % 32)
}

/// Returns three Z-characters as a word, marked where `is_last` says that it is the last of its text.
#[inline]
pub(crate) fn word(is_last: bool, a: u8, b: u8, c: u8) -> [u8; 2]
    requires { AreZs (a ∷ b ∷ c ∷ []) }
    ensures { result ≡ word is_last a b c }
{
    let mark = if is_last { 128 } else { 0 };
    [mark + 4 * a + b / 8, 32 * (b % 8) + c]
}
