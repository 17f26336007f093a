//! The bytes of the token at hand, as far as they are kept.
ghost use Rattle.std.specs.Prelude.{◌≡◌, ◌<◌, IfOk, IsErr, OnOk};
ghost use Rattle.inf_scanner.specs.{Kept.nothing_kept, Kept.with_byte, Runs.with_bytes};

use std::alloc::{AllocError, Global};
use std::marker::Model;

/// The bytes of a token, as far as there is room for them. Contracts see these bytes and whether there were more.
#[derive(Drop)]
pub struct Spelling {
    bytes: Vec<u8>,
    is_cut: bool,
}

impl Model for Spelling {
    ghost use Rattle.std.specs.Prelude.{◌≤◌};
    ghost use Rattle.std.specs.Vec.{vec_capacity};
    ghost use Rattle.inf_scanner.specs.Kept.{Kept};

    ghost Value = { Kept };

    ghost view = { λ s. record { bytes = s.bytes.items; is_cut = s.is_cut } };

    ghost invariant = { λ s. 32 ≤ vec_capacity s.bytes };
}

impl Spelling {
    /// Returns a spelling of no bytes, with room for 32, which is the most of a name.
    pub(crate) fn new(alloc: Global) -> Result<Spelling, AllocError>
        ensures { IfOk result (λ s. s ≡ nothing_kept) }
    {
        Ok(Spelling {
            bytes: Vec::with_capacity(alloc, 32)?,
            is_cut: false,
        })
    }

    /// Forgets all bytes.
    pub(crate) fn clear(&mut self)
        ensures { self.new ≡ nothing_kept }
    {
        self.bytes.clear();
        self.is_cut = false;
    }

    /// Keeps a byte if fewer than `most` are kept, and else notes that the spelling is cut. There is always room for 32 bytes.
    pub(crate) fn push(&mut self, most: usize, byte: u8) -> Result<(), AllocError>
        ensures ok { OnOk result (self.new ≡ with_byte most byte self.old) }
        ensures memory { IsErr result → 32 < most }
    {
        if self.bytes.len() < most {
            self.bytes.push(byte)?;
        } else {
            self.is_cut = true;
        }
        Ok(())
    }

    /// Keeps bytes, up to `most` in all; where there are more, notes that the spelling is cut. There is always room for 32 bytes.
    pub(crate) fn extend(&mut self, most: usize, bytes: &[u8]) -> Result<(), AllocError>
        ensures ok { OnOk result (self.new ≡ with_bytes most bytes.now self.old) }
        ensures memory { IsErr result → 32 < most }
    {
        let room = most.saturating_sub(self.bytes.len());
        if bytes.len() <= room {
            return self.bytes.extend_from_slice(bytes);
        }
        self.bytes.extend_from_slice(&bytes[..room])?;
        self.is_cut = true;
        Ok(())
    }

    /// Returns the bytes that are kept.
    pub fn as_slice(&self) -> &[u8]
        ensures { result.now ≡ self.now.bytes }
    {
        self.bytes.as_slice()
    }

    pub(crate) fn is_cut(&self) -> bool
        ensures { result ≡ self.now.is_cut }
    {
        self.is_cut
    }
}
