//! Texts packed as a story has them.
ghost use Rattle.std.specs.Prelude.{◌≡◌, ◌<◌, ◌≤◌, true, IfOk, IfSome, IsTrue, MatchOption, length, [], option_copied};
ghost use Rattle.inf_characters.specs.Items.{IsText};
ghost use Rattle.inf_text.specs.{Parts.AreAbbreviations, Step.Steps, Unpacking.UnpacksTo, Words.are_words};
ghost use Rattle.inf_text.specs.Packing.{in_use, longest, packed, zs_list};

use crate::abbreviation::Abbreviations;
use crate::packer::Waiting;
use crate::zchars::{ZChars, abbreviation_zs, item_zs};
use inf_characters::{Text, TextItem};
use std::alloc::{AllocError, Global};

/// Returns the bytes of a text, packed with the abbreviations that are given (Z-Machine Standard 1.1, section 3). At each place that is
/// reached, the longest abbreviation that stands there is taken. The only error is that there is too little memory.
pub fn pack(
    alloc: Global,
    text: &Text,
    abbreviations: Option<&Abbreviations>,
) -> Result<Vec<u8>, AllocError>
    ensures bytes { IfOk result (λ bytes. bytes.items ≡ packed text.now (in_use (option_copied abbreviations.entry))) }
    // An interpreter reads in the bytes the text.
    ensures unpacks { IfOk result (λ bytes. UnpacksTo (in_use (option_copied abbreviations.entry)) bytes.items text.now) }
    // The bytes are whole words, of which only the last is marked as the end.
    ensures words { IfOk result (λ bytes. IsTrue (are_words bytes.items)) }
{
    if has_none(abbreviations) {
        pack_plain(alloc, text)
    } else {
        pack_short(alloc, text, abbreviations)
    }
}

/// Returns whether there are no abbreviations.
fn has_none(abbreviations: Option<&Abbreviations>) -> bool
    ensures { result ≡ true → in_use (option_copied abbreviations.entry) ≡ [] }
{
    match abbreviations {
        Some(declared) => declared.is_empty(),
        None => true,
    }
}

/// Returns no bytes yet, with room for those of `len` items, most of which are one Z-character each.
fn with_room(alloc: Global, len: usize) -> Vec<u8>
    ensures { result.items ≡ [] }
{
    let mut bytes = Vec::new(alloc);
    // The reservation may fail: there may still be memory for the bytes that come.
    let _ = bytes.reserve(len / 3 * 2 + 2);
    bytes
}

/// Returns the bytes of a text, packed without abbreviations.
fn pack_plain(alloc: Global, text: &Text) -> Result<Vec<u8>, AllocError>
    ensures text { IsText text.now }
    ensures bytes { IfOk result (λ bytes. bytes.items ≡ packed text.now []) }
{
    let mut bytes = with_room(alloc, text.len());
    let mut waiting = Waiting::new();
    for item in text.as_slice() {
        waiting = waiting.push_all(&mut bytes, item_zs(*item))?;
    }
    waiting.finish(bytes)
}

/// Returns the bytes of a text, packed with the abbreviations that are given.
fn pack_short(
    alloc: Global,
    text: &Text,
    abbreviations: Option<&Abbreviations>,
) -> Result<Vec<u8>, AllocError>
    ensures text { IsText text.now }
    ensures declared { AreAbbreviations (in_use (option_copied abbreviations.entry)) }
    ensures bytes { IfOk result (λ bytes. bytes.items ≡ packed text.now (in_use (option_copied abbreviations.entry))) }
{
    let mut items = text.as_slice();
    let mut bytes = with_room(alloc, items.len());
    let mut waiting = Waiting::new();
    while let Some((zs, rest)) = next_zs(abbreviations, items) {
        waiting = waiting.push_all(&mut bytes, zs)?;
        items = rest;
    }
    waiting.finish(bytes)
}

/// Returns the number of bytes that `pack` gives. Takes no memory.
pub fn packed_len(text: &Text, abbreviations: Option<&Abbreviations>) -> usize
    ensures { result ≡ length (packed text.now (in_use (option_copied abbreviations.entry))) }
{
    let mut items = text.as_slice();
    let mut count: usize = 0;
    while let Some((zs, rest)) = next_zs(abbreviations, items) {
        count += zs.len();
        items = rest;
    }
    if count == 0 { 2 } else { (count + 2) / 3 * 2 }
}

/// Returns the number and the length of the longest abbreviation that stands at the front of a text.
#[tactic(auto, unfolding(crate::specs::Packing::longest))]
#[inline]
fn longest(abbreviations: Option<&Abbreviations>, items: &[TextItem]) -> Option<(usize, usize)>
    ensures declared { AreAbbreviations (in_use (option_copied abbreviations.entry)) }
    ensures value { result ≡ longest (in_use (option_copied abbreviations.entry)) items.now }
    ensures fits { IfSome result (λ found. (found.0 < 64) × (found.1 ≤ length items.now)) }
{
    match abbreviations {
        Some(abbreviations) => abbreviations.longest(items),
        None => None,
    }
}

/// Returns the Z-characters at the front of a text, and the items behind those that they stand for.
#[inline]
fn next_zs<'a>(
    abbreviations: Option<&Abbreviations>,
    items: &'a [TextItem],
) -> Option<(ZChars, &'a [TextItem])>
    requires { IsText items.now }
    ensures declared { AreAbbreviations (in_use (option_copied abbreviations.entry)) }
    ensures steps { MatchOption result (items.now ≡ [])
        (λ found. Steps (in_use (option_copied abbreviations.entry)) items.now (zs_list found.0) found.1.now) }
{
    let found = longest(abbreviations, items);
    let (first, rest) = items.split_first()?;
    match found {
        Some((number, len)) => Some((abbreviation_zs(number), &rest[len.saturating_sub(1)..])),
        None => Some((item_zs(*first), rest)),
    }
}
