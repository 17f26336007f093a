//! Z-characters written as words.
ghost use Rattle.std.specs.Prelude.{◌≡◌, ◌<◌, ◌+◌, ◌++◌, ◌∷◌, ◌/◌, ◌%◌, [], IfOk, OnOk};
ghost use Rattle.inf_text.specs.Packer.{IsWaiting, Takes, completed, digits};
ghost use Rattle.inf_text.specs.Packing.{AreZs, words, zs_list};

use crate::zchars::ZChars;
use std::alloc::AllocError;
use std::marker::Model;

/// The mark of the last word of a text.
const LAST: u16 = 32768;

/// At most three Z-characters that wait, since a word is written once it is known whether it is the last: a number with
/// five bits for each of them. Contracts see the Z-characters.
#[derive(Drop)]
pub(crate) struct Waiting {
    number: u16,
    count: u8,
}

impl Model for Waiting {
    ghost use Rattle.std.specs.Prelude.{ℕ, List};
    ghost use Rattle.inf_text.specs.Packer.{IsWaiting, digits};

    ghost Value = { List ℕ };

    ghost view = { λ w. digits w.count w.number };

    ghost invariant = { λ w. IsWaiting w.count w.number };
}

impl Waiting {
    /// Returns that no Z-character waits.
    pub(crate) fn new() -> Waiting
        ensures { result ≡ [] }
    {
        Waiting {
            number: 0,
            count: 0,
        }
    }

    /// Takes one to four Z-characters behind those that wait, and appends the words to `bytes` that are known not to be the last.
    #[inline(always)]
    pub(crate) fn push_all(self, bytes: &mut Vec<u8>, zs: ZChars) -> Result<Waiting, AllocError>
        requires { AreZs (zs_list zs) }
        ensures { IfOk result (λ new. Takes (bytes.old.items, self) (zs_list zs) (bytes.new.items, new)) }
    {
        match zs {
            ZChars::One(a) => self.push(bytes, a),
            ZChars::Two(a, b) => self.push_two(bytes, a, b),
            ZChars::Four(a, b, c, d) => self.push_two(bytes, a, b)?.push_two(bytes, c, d),
        }
    }

    /// Takes two Z-characters behind those that wait. It stands apart, so that what `push_all` inlines stays small.
    #[inline(never)]
    fn push_two(self, bytes: &mut Vec<u8>, a: u8, b: u8) -> Result<Waiting, AllocError>
        requires { (a < 32) × (b < 32) }
        ensures { IfOk result (λ new. Takes (bytes.old.items, self) (a ∷ b ∷ []) (bytes.new.items, new)) }
    {
        self.push(bytes, a)?.push(bytes, b)
    }

    /// Takes a Z-character behind those that wait. Where these are three, appends their word to `bytes`.
    #[inline]
    fn push(self, bytes: &mut Vec<u8>, z: u8) -> Result<Waiting, AllocError>
        requires { z < 32 }
        ensures { IfOk result (λ new. Takes (bytes.old.items, self) (z ∷ []) (bytes.new.items, new)) }
    {
        let Waiting { number, count } = self;
        if count < 3 {
            return Ok(Waiting {
                number: number * 32 + u16::from(z),
                count: count + 1,
            });
        }
        push_word(bytes, number)?;
        Ok(Waiting {
            number: u16::from(z),
            count: 1,
        })
    }

    /// Returns `bytes` with the last word behind them, which is filled with 5.
    pub(crate) fn finish(self, mut bytes: Vec<u8>) -> Result<Vec<u8>, AllocError>
        ensures { IfOk result (λ all. all.items ≡ completed (bytes.items, self) []) }
    {
        let word = LAST + filled(self.count, self.number);
        push_word(&mut bytes, word)?;
        Ok(bytes)
    }
}

/// Returns the number of the last word, without its mark: that of `count` Z-characters, filled with 5.
#[inline]
fn filled(count: u8, number: u16) -> u16
    requires { IsWaiting count number }
    ensures value { words (digits count number) ≡ ((32768 + result) / 256) ∷ ((32768 + result) % 256) ∷ [] }
    ensures fits { result < 32768 }
{
    match count {
        0 => 5 * 1024 + 5 * 32 + 5,
        1 => number * 1024 + 5 * 32 + 5,
        2 => number * 32 + 5,
        _ => number,
    }
}

/// Appends the two bytes of a word, the high one first.
#[inline]
fn push_word(bytes: &mut Vec<u8>, word: u16) -> Result<(), AllocError>
    ensures { OnOk result (bytes.new.items ≡ bytes.old.items ++ (word / 256) ∷ (word % 256) ∷ []) }
{
    bytes.reserve(2)?;
    bytes.push_reserved((word / 256) as u8);
    bytes.push_reserved((word % 256) as u8);
    Ok(())
}
