//! A source seen through a window.
ghost use Rattle.std.specs.Prelude.{◌≡◌, ◌+◌, ◌-◌, ◌<◌, ◌≤◌, ◌^◌, ◌⊎◌, ◌∷◌, [], drop, is_err, length, false, true, IsErr, IfOk, IfErr};
ghost use Rattle.inf_lexer.specs.Reading.{Fills, ReadsOnce};

use crate::faults::LexFault;
use inf_devices::files::{Files, ReadFault};
use std::alloc::{AllocError, Global};
use std::marker::Model;

/// The most bytes that a source may have.
const MOST_SOURCE_BYTES: usize = 16_777_216;

/// Number of bytes that are in view at most.
const SIZE: usize = 4096;

/// The bytes of a source that were given and not taken yet, at most 4,096, the number of all that were given, and whether the
/// end was read. Behind the end nothing is read any more. The bytes have memory of their own, so that moving a window moves none of them.
#[derive(Drop)]
pub(crate) struct Window {
    buffer: Vec<u8>,
    next: usize,
    end: usize,
    given: usize,
    is_over: bool,
}

impl Model for Window {
    ghost use Rattle.std.specs.Prelude.{◌≡◌, ◌+◌, ◌-◌, ◌≤◌, length, take, drop};
    ghost use Rattle.inf_lexer.specs.Unread.{View};

    ghost Value = { View };

    ghost view = { λ w. record { left = take (w.end - w.next) (drop w.next w.buffer.items); given = w.given; is_over = w.is_over } };

    ghost invariant = { λ w. (w.next ≤ w.end) × (w.end ≤ 4096) × (w.end ≤ w.given + w.next) × (length w.buffer.items ≡ 4096) };
}

impl Window {
    /// Returns a window of a source of which nothing was given yet.
    pub(crate) fn new(alloc: Global) -> Result<Window, AllocError>
        ensures { IfOk result (λ window. window ≡ record { left = []; given = 0; is_over = false }) }
    {
        Ok(Window {
            buffer: vec![in alloc; 0; SIZE]?,
            next: 0,
            end: 0,
            given: 0,
            is_over: false,
        })
    }

    /// Becomes a window of another source, of which nothing was given yet, in the same memory.
    pub(crate) fn restart(&mut self)
        ensures { self.new ≡ record { left = []; given = 0; is_over = false } }
    {
        self.next = 0;
        self.end = 0;
        self.given = 0;
        self.is_over = false;
    }

    /// Reads once from the source where nothing is in view, unless the end was read. Fails with `Read` where the source cannot
    /// be read or has more bytes than it may have.
    pub(crate) fn refill<F: Files>(&mut self, files: &mut F) -> Result<(), LexFault>
        requires is_open { 0 < F.depth files.old }
        requires given { self.old.given ≤ 16777216 }
        ensures fills { Fills F.Files (is_err result) files.old files.new self.old self.new }
        ensures over { IfOk result (λ _. self.new.left ≡ [] → self.new.is_over ≡ true) }
        ensures ahead { length self.new.left ≤ self.new.given }
        ensures taken { self.new.given + length self.old.left ≡ self.old.given + length self.new.left }
        ensures err { IfErr result (λ fault. fault ≡ LexFault.Read) }
        ensures refused { IsErr result → (self.old.left ≡ []) × (self.old.is_over ≡ false) }
        ensures unread { IsErr result → (self.new.given ≡ self.old.given) ⊎ ((self.old.given ≡ 16777216) × (self.new.given ≡ 16777217)) }
    {
        if self.next < self.end || self.is_over {
            return Ok(());
        }
        self.fill(files)
    }

    /// Returns the bytes in view.
    pub(crate) fn left(&self) -> &[u8]
        ensures { result.now ≡ self.now.left }
    {
        &self.buffer.as_slice()[self.next..self.end]
    }

    /// Reads once into a window in which nothing is left. No byte is read past as many as a source may have, but for one that
    /// shows that the source has more. Fails with `Read` where the source cannot be read or has more.
    fn fill<F: Files>(&mut self, files: &mut F) -> Result<(), LexFault>
        requires is_open { 0 < F.depth files.old }
        requires given { self.old.given ≤ 16777216 }
        requires empty { self.old.left ≡ [] }
        requires going { self.old.is_over ≡ false }
        ensures fills { Fills F.Files (is_err result) files.old files.new self.old self.new }
        ensures over { IfOk result (λ _. self.new.left ≡ [] → self.new.is_over ≡ true) }
        ensures ahead { length self.new.left ≤ self.new.given }
        ensures taken { self.new.given ≡ self.old.given + length self.new.left }
        ensures err { IfErr result (λ fault. fault ≡ LexFault.Read) }
        ensures unread { IsErr result → (self.new.given ≡ self.old.given) ⊎ ((self.old.given ≡ 16777216) × (self.new.given ≡ 16777217)) }
    {
        self.next = 0;
        self.end = 0;
        let room = (MOST_SOURCE_BYTES - self.given).clamp(1, SIZE);
        let Ok(count) = read_front(self.buffer.as_mut_slice(), room, files) else {
            return Err(LexFault::Read);
        };
        self.end = count;
        self.given += count;
        self.is_over = count == 0;
        if self.given > MOST_SOURCE_BYTES {
            return Err(LexFault::Read);
        }
        Ok(())
    }

    /// Takes the first `n` bytes in view.
    pub(crate) fn pass(&mut self, n: usize)
        requires { n ≤ length self.old.left }
        ensures { self.new ≡ record self.old { left = drop n self.old.left } }
    {
        self.next += n;
    }
}

/// Reads once into the first `room` places of `bytes`, and returns the number of bytes that were read.
fn read_front<F: Files>(bytes: &mut [u8], room: usize, files: &mut F) -> Result<usize, ReadFault>
    requires is_open { 0 < F.depth files.old }
    requires room { 0 < room }
    requires within { room ≤ length bytes.old }
    ensures reads { ReadsOnce F.Files files.old files.new bytes.new result }
    ensures count { IfOk result (λ n. n ≤ room) }
    ensures fits { IfOk result (λ n. n ≤ length bytes.new) }
{
    files.read(&mut bytes[..room])
}
