//! Texts as the dictionary has them.
ghost use Rattle.std.specs.Prelude.{◌≡◌, ◌<◌, ◌++◌, ◌∷◌, [], take, replicate};
ghost use Rattle.inf_text.specs.Packing.{AreZs, dictionary_bytes, words, zs_list};

use crate::zchars::{ZChars, item_zs, word};
use inf_characters::Text;
use std::marker::Model;

/// The number of Z-characters that a text has in the dictionary.
const LEN: usize = 9;

/// The Z-character that fills a text.
const FILL: u8 = 5;

/// Returns the six bytes of a text in the dictionary: nine Z-characters, the capital letters made small, cut
/// or filled with 5, without abbreviations (Z-Machine Standard 1.1, sections 3.7 and 13.3).
pub fn dict_word(text: &Text) -> [u8; 6]
    ensures { result ≡ dictionary_bytes text.now }
{
    let mut front = Front::new();
    for item in text.as_slice() {
        front.push_all(item_zs(item.to_ascii_lowercase()));
    }
    front.bytes()
}

/// The first Z-characters of a text, at most nine. Contracts see the Z-characters that were given.
#[derive(Drop)]
struct Front {
    zs: [u8; 9],
    len: usize,
}

impl Model for Front {
    ghost use Rattle.std.specs.Prelude.{◌≡◌, ◌≤◌, ◌-◌, ◌++◌, List, ℕ, take, replicate};
    ghost use Rattle.inf_text.specs.Packing.{AreZs};

    ghost Value = { List ℕ };

    ghost view = { λ f. take f.len f.zs };

    ghost invariant = { λ f. (f.len ≤ 9) × (f.zs ≡ take f.len f.zs ++ replicate (9 - f.len) 5) × AreZs f.zs };
}

impl Front {
    /// Returns a front to which no Z-character was given yet.
    fn new() -> Front
        ensures { result ≡ [] }
    {
        Front {
            zs: [FILL; LEN],
            len: 0,
        }
    }

    /// Takes one to four Z-characters, as far as there is room.
    fn push_all(&mut self, zs: ZChars)
        requires { AreZs (zs_list zs) }
        ensures { self.new ≡ take 9 (self.old ++ zs_list zs) }
    {
        match zs {
            ZChars::One(a) => self.push(a),
            ZChars::Two(a, b) => {
                self.push(a);
                self.push(b);
            }
            ZChars::Four(a, b, c, d) => {
                self.push(a);
                self.push(b);
                self.push(c);
                self.push(d);
            }
        }
    }

    /// Takes a Z-character, if there is room.
    fn push(&mut self, z: u8)
        requires { z < 32 }
        ensures { self.new ≡ take 9 (self.old ++ z ∷ []) }
    {
        if self.len < LEN {
            self.zs[self.len] = z;
            self.len += 1;
        }
    }

    /// Returns the six bytes of the Z-characters so far, filled up with 5 to nine.
    fn bytes(&self) -> [u8; 6]
        ensures { result ≡ words (take 9 (self.now ++ replicate 9 5)) }
    {
        nine_bytes(&self.zs)
    }
}

/// Returns nine Z-characters packed as three words.
fn nine_bytes(zs: &[u8; 9]) -> [u8; 6]
    requires { AreZs zs.now }
    ensures { result ≡ words zs.now }
{
    let [a, b] = word(false, zs[0], zs[1], zs[2]);
    let [c, d] = word(false, zs[3], zs[4], zs[5]);
    let [e, f] = word(true, zs[6], zs[7], zs[8]);
    [a, b, c, d, e, f]
}
