//! The areas of a story: lists of bytes that grow at their end and are patched in place.
ghost use Rattle.std.specs.Prelude.{◌≡◌, ◌+◌, ◌-◌, ◌<◌, ◌≤◌, ◌^◌, ℕ, List, [], ◌∷◌, ◌++◌, length, take, drop, slice_index, slice_set, OnOk};
ghost use Rattle.std.specs.Prelude.{OnErr};
ghost use Rattle.inf_area.specs.{Moves.moved, Words.with_word};

use crate::words::word_bytes;
use std::alloc::{AllocError, Global};
use std::marker::Model;

/// An area of a story under construction, which is a list of bytes.
///
/// Places count from 0, in bytes. Each place in a call has to be within the area.
pub trait Area {
    /// The bytes, in order.
    ghost bytes: { Self → List ℕ };

    /// Returns the number of bytes, which is below 2 ^ 63 as that of any list.
    fn len(&self) -> usize
        ensures value { result ≡ length (bytes self.now) }
        ensures small { result < 2 ^ 63 };

    /// Returns the byte at the place `at`, which is within the area.
    fn byte(&self, at: usize) -> u8
        requires { at < length (bytes self.now) }
        ensures { result ≡ slice_index (bytes self.now) at };

    /// Appends a byte. Where no memory is left for it the area stays as it was.
    fn push(&mut self, byte: u8) -> Result<(), AllocError>
        ensures ok { OnOk result (bytes self.new ≡ bytes self.old ++ byte ∷ []) }
        ensures err { OnErr result (bytes self.new ≡ bytes self.old) };

    /// Appends bytes. Where no memory is left for all of them the area stays as it was.
    fn append(&mut self, added: &[u8]) -> Result<(), AllocError>
        ensures ok { OnOk result (bytes self.new ≡ bytes self.old ++ added.now) }
        ensures err { OnErr result (bytes self.new ≡ bytes self.old) }
    {
        let len = self.len();
        for byte in added {
            if let Err(fault) = self.push(*byte) {
                let end = self.len();
                self.cut(len, end - len);
                return Err(fault);
            }
        }
        Ok(())
    }

    /// Appends the bytes of the area to `out`. It fails for want of memory alone.
    fn append_to(&self, out: &mut Vec<u8>) -> Result<(), AllocError>
        ensures { OnOk result (out.new.items ≡ out.old.items ++ bytes self.now) }
    {
        for place in 0..self.len() {
            out.push(self.byte(place))?;
        }
        Ok(())
    }

    /// Sets the byte at the place `at`, which is within the area.
    fn patch_byte(&mut self, at: usize, byte: u8)
        requires { at < length (bytes self.old) }
        ensures { bytes self.new ≡ slice_set (bytes self.old) at byte };

    /// Sets the bytes at `at` and `at + 1`, which are within the area, to a word, its high byte first.
    fn patch_word(&mut self, at: usize, word: u16)
        requires { at + 1 < length (bytes self.old) }
        ensures { bytes self.new ≡ with_word (bytes self.old) at word };

    /// Writes the bytes from the place `from` up to the place `end` over those from the place `to` on. The places come in the
    /// order `to`, `from`, `end`, and `end` is at most the length.
    fn move_left(&mut self, to: usize, from: usize, end: usize)
        requires before { to ≤ from }
        requires ordered { from ≤ end }
        requires within { end ≤ length (bytes self.old) }
        ensures { bytes self.new ≡ moved to from (end - from) (bytes self.old) }
    {
        let gap = from - to;
        for at in from..end {
            let byte = self.byte(at);
            self.patch_byte(at - gap, byte);
        }
    }

    /// Takes out the `n` bytes from the place `at` on, all of which are within the area.
    fn cut(&mut self, at: usize, n: usize)
        requires { at + n ≤ length (bytes self.old) }
        ensures { bytes self.new ≡ take at (bytes self.old) ++ drop (at + n) (bytes self.old) };
}

/// An area whose bytes are in one piece.
#[derive(Drop)]
pub struct FlatArea {
    content: Vec<u8>,
}

impl Model for FlatArea {
    ghost Value = { List ℕ };

    ghost view = { λ area. area.content.items };
}

impl FlatArea {
    /// Returns an area of no bytes. It takes no memory until the first `push`.
    pub fn new(alloc: Global) -> Self
        ensures { result ≡ [] }
    {
        FlatArea {
            content: Vec::new(alloc),
        }
    }

    /// Returns the bytes, in order.
    pub fn as_slice(&self) -> &[u8]
        ensures { result.now ≡ self.now }
    {
        self.content.as_slice()
    }
}

impl Area for FlatArea {
    ghost bytes = { λ area. area };

    fn len(&self) -> usize {
        self.content.len()
    }

    fn byte(&self, at: usize) -> u8 {
        self.content[at]
    }

    fn push(&mut self, byte: u8) -> Result<(), AllocError> {
        self.content.push(byte)?;
        Ok(())
    }

    fn append(&mut self, added: &[u8]) -> Result<(), AllocError> {
        self.content.extend_from_slice(added)
    }

    fn append_to(&self, out: &mut Vec<u8>) -> Result<(), AllocError> {
        out.extend_from_slice(&self.content)
    }

    fn patch_byte(&mut self, at: usize, byte: u8) {
        self.content[at] = byte;
    }

    fn patch_word(&mut self, at: usize, word: u16) {
        let [high, low] = word_bytes(word);
        self.content[at] = high;
        self.content[at + 1] = low;
    }

    fn move_left(&mut self, to: usize, from: usize, end: usize) {
        self.content.copy_within(from..end, to);
    }

    fn cut(&mut self, at: usize, n: usize) {
        let len = self.content.len();
        self.content.copy_within(at + n..len, at);
        self.content.truncate(len - n);
    }
}
