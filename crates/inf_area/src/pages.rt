//! Areas whose bytes are in pages.
ghost use Rattle.std.specs.Prelude.{◌≡◌, ◌+◌, ◌*◌, ◌%◌, ◌^◌, ◌<◌, ◌≤◌, ℕ, List, [], ◌∷◌, ◌++◌, length, take, drop, slice_index, slice_set, OnOk};
ghost use Rattle.std.specs.Prelude.{IfOk, OnErr};
ghost use Rattle.inf_area.specs.Pages.{page_bytes, with_bytes, AreWhole};

use crate::areas::Area;
use crate::words::word_bytes;
use std::alloc::{AllocError, Global};
use std::marker::Model;

// The number of bytes of a page.
const PAGE_LEN: usize = 1024;

type Page = Box<[u8; PAGE_LEN]>;

/// An area whose bytes are in pages of 1,024 bytes, which are never moved when the area grows.
#[derive(Drop)]
pub struct PagedArea {
    alloc: Global,
    // The pages, each with all its bytes; pages behind the bytes of the area are kept for those that are appended next.
    pages: Vec<Page>,
    len: usize,
}

impl Model for PagedArea {
    ghost use Rattle.std.specs.Prelude.{ℕ, List, take};
    ghost use Rattle.inf_area.specs.Pages.{page_bytes, IsPaged};

    ghost Value = { List ℕ };

    ghost view = { λ area. take area.len (page_bytes area.pages.items) };

    ghost invariant = { λ area. IsPaged area.pages.items area.len };
}

impl PagedArea {
    /// Returns an area of no bytes. It takes no memory until the first `push`.
    pub fn new(alloc: Global) -> Self
        ensures { result ≡ [] }
    {
        PagedArea {
            alloc,
            pages: Vec::new(alloc),
            len: 0,
        }
    }

    // Appends bytes from the front of `added`, as many as the page of the next byte has room for, and returns how many they
    // are. Where no memory is left for a page the area stays as it was.
    fn append_piece(&mut self, added: &[u8]) -> Result<usize, AllocError>
        requires { 0 < length added.now }
        ensures count { IfOk result (λ count. (0 < count) × (count ≤ length added.now)) }
        ensures ok { IfOk result (λ count. self.new ≡ self.old ++ take count added.now) }
        ensures err { OnErr result (self.new ≡ self.old) }
    {
        if self.len / PAGE_LEN >= self.pages.len() {
            add_page(self.alloc, &mut self.pages)?;
        }
        let count = added.len().min(PAGE_LEN - self.len % PAGE_LEN);
        set_bytes(self.pages.as_mut_slice(), self.len, &added[..count]);
        self.len += count;
        Ok(count)
    }
}

// Returns the byte at a place of the pages.
fn byte_at(pages: &[Page], at: usize) -> u8
    requires whole { AreWhole pages.now }
    requires within { at < 1024 * length pages.now }
    ensures { result ≡ slice_index (page_bytes pages.now) at }
{
    pages[at / PAGE_LEN][at % PAGE_LEN]
}

// Sets the byte at a place of the pages.
fn set_byte(pages: &mut [Page], at: usize, byte: u8)
    requires whole { AreWhole pages.old }
    requires within { at < 1024 * length pages.old }
    ensures bytes { page_bytes pages.new ≡ slice_set (page_bytes pages.old) at byte }
    ensures whole { AreWhole pages.new }
{
    let page = &mut pages[at / PAGE_LEN];
    page[at % PAGE_LEN] = byte;
}

// Sets the bytes of a page from a place on.
fn set_in_page(page: &mut Page, at: usize, bytes: &[u8])
    requires whole { length page.old.value ≡ 1024 }
    requires room { at + length bytes.now ≤ 1024 }
    ensures { page.new.value ≡ with_bytes page.old.value at bytes.now }
{
    page[at..at + bytes.len()].copy_from_slice(bytes);
}

// Sets the bytes from a place of the pages on, all of which are in one page.
fn set_bytes(pages: &mut [Page], at: usize, bytes: &[u8])
    requires whole { AreWhole pages.old }
    requires within { at < 1024 * length pages.old }
    requires room { at % 1024 + length bytes.now ≤ 1024 }
    ensures bytes { page_bytes pages.new ≡ with_bytes (page_bytes pages.old) at bytes.now }
    ensures whole { AreWhole pages.new }
{
    set_in_page(&mut pages[at / PAGE_LEN], at % PAGE_LEN, bytes);
}

// Appends a page of zeros. There are at most as many pages as keep the number of bytes below 2 ^ 63, as for any list.
fn add_page(alloc: Global, pages: &mut Vec<Page>) -> Result<(), AllocError>
    requires { AreWhole pages.old.items }
    ensures count { OnOk result (length pages.new.items ≡ length pages.old.items + 1) }
    ensures bytes { OnOk result ((n : ℕ) → n ≤ 1024 * length pages.old.items
        → take n (page_bytes pages.new.items) ≡ take n (page_bytes pages.old.items)) }
    ensures whole { OnOk result (AreWhole pages.new.items) }
    ensures counted { OnOk result (1024 * length pages.new.items < 2 ^ 63) }
    ensures err { OnErr result (pages.new.items ≡ pages.old.items) }
{
    if pages.len() >= isize::MAX as usize / PAGE_LEN {
        return Err(AllocError);
    }
    let page = Box::new(alloc, [0; PAGE_LEN])?;
    pages.push(page)?;
    Ok(())
}

// Appends the first `count` bytes of a page to `out`.
fn append_front(page: &Page, count: usize, out: &mut Vec<u8>) -> Result<(), AllocError>
    requires whole { length page.now.value ≡ 1024 }
    requires within { count ≤ 1024 }
    ensures { OnOk result (out.new.items ≡ out.old.items ++ take count page.now.value) }
{
    out.extend_from_slice(&page[..count])
}

// Appends the first `len` bytes of the pages to `out`, a page at a time.
fn append_pages(pages: &[Page], len: usize, out: &mut Vec<u8>) -> Result<(), AllocError>
    requires { AreWhole pages.now }
    ensures { OnOk result (out.new.items ≡ out.old.items ++ take len (page_bytes pages.now)) }
{
    let mut left = len;
    for page in pages {
        let count = left.min(PAGE_LEN);
        append_front(page, count, out)?;
        left -= count;
    }
    Ok(())
}

impl Area for PagedArea {
    ghost bytes = { λ area. area };

    fn len(&self) -> usize {
        self.len
    }

    fn byte(&self, at: usize) -> u8 {
        byte_at(self.pages.as_slice(), at)
    }

    fn push(&mut self, byte: u8) -> Result<(), AllocError> {
        if self.len / PAGE_LEN >= self.pages.len() {
            add_page(self.alloc, &mut self.pages)?;
        }
        set_byte(self.pages.as_mut_slice(), self.len, byte);
        self.len += 1;
        Ok(())
    }

    fn append(&mut self, added: &[u8]) -> Result<(), AllocError> {
        let len = self.len();
        let mut rest = added;
        while !rest.is_empty() {
            match self.append_piece(rest) {
                Ok(count) => rest = &rest[count..],
                Err(fault) => {
                    let end = self.len();
                    self.cut(len, end - len);
                    return Err(fault);
                }
            }
        }
        Ok(())
    }

    fn append_to(&self, out: &mut Vec<u8>) -> Result<(), AllocError> {
        append_pages(self.pages.as_slice(), self.len, out)
    }

    fn patch_byte(&mut self, at: usize, byte: u8) {
        set_byte(self.pages.as_mut_slice(), at, byte);
    }

    fn patch_word(&mut self, at: usize, word: u16) {
        let pages = self.pages.as_mut_slice();
        let [high, low] = word_bytes(word);
        set_byte(pages, at, high);
        set_byte(pages, at + 1, low);
    }

    fn cut(&mut self, at: usize, n: usize) {
        let end = self.len();
        self.move_left(at, at + n, end);
        self.len = end - n;
    }
}
