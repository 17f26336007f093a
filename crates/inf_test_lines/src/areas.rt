//! Areas that lack memory once, and the bytes of an area.
use inf_area::Area;
use std::alloc::{AllocError, Global};

/// An area that takes a number of bytes, then refuses one, and takes all others.
#[derive(Drop)]
pub struct Failing<A: Area + Drop> {
    /// The area with the bytes that were taken.
    pub inner: A,
    /// The number of bytes that are taken before one is refused; `None` where none is refused, or one was.
    pub room: Option<usize>,
}

impl<A: Area + Drop> Area for Failing<A> {
    ghost bytes = { λ area. A.bytes area.inner };

    fn len(&self) -> usize {
        self.inner.len()
    }

    fn byte(&self, at: usize) -> u8 {
        self.inner.byte(at)
    }

    fn push(&mut self, byte: u8) -> Result<(), AllocError> {
        match self.room {
            Some(0) => {
                self.room = None;
                return Err(AllocError);
            }
            Some(room) => self.room = Some(room - 1),
            None => {}
        }
        self.inner.push(byte)
    }

    fn patch_byte(&mut self, at: usize, byte: u8) {
        self.inner.patch_byte(at, byte);
    }

    fn patch_word(&mut self, at: usize, word: u16) {
        self.inner.patch_word(at, word);
    }

    fn cut(&mut self, at: usize, n: usize) {
        self.inner.cut(at, n);
    }
}

/// Returns the bytes of an area, each as a number.
pub fn bytes_in<A: Area>(alloc: Global, area: &A) -> Result<Vec<u16>, AllocError> {
    let mut bytes = Vec::new(alloc);
    for at in 0..area.len() {
        bytes.push(u16::from(area.byte(at)))?;
    }
    Ok(bytes)
}
