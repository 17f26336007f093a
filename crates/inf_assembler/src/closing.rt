//! Closing a routine: its short branches, and the bytes that move together.
ghost use Rattle.std.specs.Prelude.{◌≡◌, ℕ, ◌+◌, ◌-◌, ◌<◌, ◌≤◌, [], ◌∷◌, ◌++◌, Option, Some, None, IfOk, OnOk, OnErr, MatchResult};
ghost use Rattle.std.specs.Prelude.{MatchOption, length, take, List, ◌^◌, IfErr};
ghost use Rattle.inf_area.specs.{Fixups.with_fixups, declared.fixups.AddFault.TheVariants.Full, declared.fixups.Fixup.Fixup};
ghost use Rattle.inf_opcode.specs.Cells.{special_size};
ghost use Rattle.inf_assembler.specs.Places.{is_short_to, first_of, offset_to, branch_offset, branch_bytes, closed_special, used_by};
ghost use Rattle.inf_assembler.specs.Closing.{found, saving, kept_place, kept_missing, kept_twice, placed_bytes, squeezed, kept_fixups};
ghost use Rattle.inf_assembler.specs.Closing.{only, AreInOrder};

use arrayvec::ArrayVec;
use inf_area::{AddFault, Area, AreaName, Fixup, Refs, word_bytes};
use inf_opcode::{Destination, Kept, Label, Special, sense_bit};
use std::alloc::{AllocError, Global};

// Returns the place of a label in a table; `None` where the table has none, or ends before it.
fn place_of(places: &[Option<usize>], label: Label) -> Option<usize>
    ensures { result ≡ found places.now label.number }
{
    match places.get(label.number as usize) {
        Some(place) => *place,
        None => None,
    }
}

// Returns whether a branch at `place` is short, by a table of the long places.
fn is_short(long: &[Option<usize>], place: usize, target: Destination) -> bool
    ensures { result ≡ is_short_to (found long.now) place target }
{
    let Destination::To(label) = target else {
        return false;
    };
    match place_of(long, label) {
        Some(target) if target >= place => {
            let offset = target - place;
            2 <= offset && offset <= 63
        }
        _ => false,
    }
}

// Returns the number of bytes that an entry saves against its long size.
fn saving(long: &[Option<usize>], entry: Kept) -> usize
    ensures value { result ≡ saving (found long.now) entry }
    ensures small { result ≤ 1 }
{
    match entry.what {
        Special::Branches(branch) if is_short(long, entry.place, branch.target) => 1,
        _ => 0,
    }
}

// Notes the place of a label, unless one is noted.
fn note(places: &mut Vec<Option<usize>>, label: Label, place: usize) -> Result<(), AllocError>
    ensures { OnOk result ((n : ℕ) → found places.new.items n ≡ first_of (found places.old.items n) (only label.number place n)) }
{
    let index = label.number as usize;
    if places.len() <= index {
        places.resize(index + 1, None)?;
    }
    if places[index].is_none() {
        places[index] = Some(place);
    }
    Ok(())
}

// Returns the places of the labels, where those branches are short that are short by `long`, a table of the long places.
// With an empty table every branch is long, and these are the long places.
pub(crate) fn label_places(
    alloc: Global,
    kept: &[Kept],
    long: &[Option<usize>],
) -> Result<Vec<Option<usize>>, AllocError>
    ensures { IfOk result (λ places. (n : ℕ) → found places.items n ≡ kept_place (found long.now) 0 kept.now n) }
{
    let mut places = Vec::new(alloc);
    let mut saved = 0;
    for entry in kept {
        if let Special::Marks(label) = entry.what {
            note(&mut places, label, entry.place.saturating_sub(saved))?;
        }
        saved += saving(long, *entry);
    }
    Ok(places)
}

// Returns the label that a branch or jump goes to, if any.
fn used_by(what: Special) -> Option<Label>
    ensures { result ≡ used_by what }
{
    match what {
        Special::Branches(branch) => match branch.target {
            Destination::To(label) => Some(label),
            Destination::ReturnFalse | Destination::ReturnTrue => None,
        },
        Special::Jumps(label) => Some(label),
        Special::Marks(_) | Special::Refers(_) => None,
    }
}

// Returns the first label by use that no place is marked with.
pub(crate) fn first_missing(kept: &[Kept], places: &[Option<usize>]) -> Option<Label>
    ensures { result ≡ kept_missing (found places.now) kept.now }
{
    for entry in kept {
        if let Some(label) = used_by(entry.what) {
            if place_of(places, label).is_none() {
                return Some(label);
            }
        }
    }
    None
}

// Returns the first label that is marked twice, by its second mark.
pub(crate) fn first_twice(alloc: Global, kept: &[Kept]) -> Result<Option<Label>, AllocError>
    ensures { IfOk result (λ label. label ≡ kept_twice [] kept.now) }
{
    let mut seen = Vec::new(alloc);
    for entry in kept {
        if let Special::Marks(label) = entry.what {
            if place_of(seen.as_slice(), label).is_some() {
                return Ok(Some(label));
            }
            note(&mut seen, label, entry.place)?;
        }
    }
    Ok(None)
}

// Returns an offset from `end` to a place, as a number of twice `half` values; `None` where it does not fit.
fn offset_to(half: usize, end: usize, target: Option<usize>) -> Option<usize>
    requires large { 2 < half }
    requires small { half ≤ 32768 }
    ensures { result ≡ offset_to half end target }
{
    let target = target?;
    if target >= end {
        let ahead = target - end;
        if ahead < half - 2 {
            return Some(ahead + 2);
        }
    } else {
        let back = end - target;
        if back <= half + 2 {
            return Some((2 * half + 2 - back) % (2 * half));
        }
    }
    None
}

// Returns the offset of a branch that ends at `end`; `None` where it does not fit.
fn branch_offset(places: &[Option<usize>], end: usize, target: Destination) -> Option<usize>
    ensures { result ≡ branch_offset (found places.now) end target }
{
    match target {
        Destination::To(label) => offset_to(0x2000, end, place_of(places, label)),
        Destination::ReturnFalse => Some(0),
        Destination::ReturnTrue => Some(1),
    }
}

// Returns the bytes of a branch, with its offset as a number of 14 bits.
fn branch_bytes(short: bool, sense: bool, offset: usize) -> ArrayVec<u8, 2>
    requires { offset < 16384 }
    ensures { result.items ≡ branch_bytes short sense offset }
{
    let mut bytes = ArrayVec::new();
    if short {
        bytes.push(sense_bit(sense) + 64 + (offset % 64) as u8);
    } else {
        let [high, low] = word_bytes(offset as u16);
        bytes.push(sense_bit(sense) + high);
        bytes.push(low);
    }
    bytes
}

// Returns the bytes of a special cell in a closed routine, by its place with all branches long; `None` where an offset does not fit.
fn closed_special(
    long: &[Option<usize>],
    places: &[Option<usize>],
    old: usize,
    new: usize,
    what: Special,
) -> Option<ArrayVec<u8, 2>>
    requires { new + special_size what < 2 ^ 64 }
    ensures { let closed = closed_special (found long.now) (found places.now) old new what in
        MatchOption result (closed ≡ None) (λ bytes. closed ≡ Some bytes.items) }
{
    match what {
        Special::Marks(_) => Some(ArrayVec::new()),
        Special::Branches(branch) => {
            let short = is_short(long, old, branch.target);
            let end = new + if short { 1 } else { 2 };
            let offset = branch_offset(places, end, branch.target)?;
            Some(branch_bytes(short, branch.sense, offset))
        }
        Special::Jumps(label) => {
            let offset = offset_to(0x8000, new + 2, place_of(places, label))?;
            Some(ArrayVec::from(word_bytes(offset as u16)))
        }
        Special::Refers(_) => {
            let mut bytes = ArrayVec::new();
            bytes.push(0);
            bytes.push(0);
            Some(bytes)
        }
    }
}

// Returns the long size of a special cell in bytes.
fn special_size(what: Special) -> usize
    ensures { result ≡ special_size what }
{
    match what {
        Special::Marks(_) => 0,
        Special::Branches(_) | Special::Jumps(_) | Special::Refers(_) => 2,
    }
}

// Moves the bytes from `from` up to `end` to the place `to`, and writes `added` behind them.
fn place_bytes<A: Area>(area: &mut A, to: usize, from: usize, end: usize, added: &[u8])
    requires before { to ≤ from }
    requires ordered { from ≤ end }
    requires within { end ≤ length (A.bytes area.old) }
    requires fits { length (A.bytes area.old) < 2 ^ 64 }
    requires room { to + (end - from) + length added.now ≤ length (A.bytes area.old) }
    ensures { A.bytes area.new ≡ placed_bytes to from (end - from) added.now (A.bytes area.old) }
{
    area.move_left(to, from, end);
    let mut at = to + (end - from);
    for byte in added {
        area.patch_byte(at, *byte);
        at += 1;
    }
}

// Moves the bytes of a routine together, from a place on, and writes its offsets. Returns `None` where an offset does not fit.
pub(crate) fn squeeze<A: Area>(
    area: &mut A,
    kept: &[Kept],
    long: &[Option<usize>],
    places: &[Option<usize>],
    start: usize,
) -> Option<()>
    requires { AreInOrder start kept.now (length (A.bytes area.old)) }
    ensures bytes { let closed = squeezed (found long.now) (found places.now) start start kept.now (A.bytes area.old) in
        MatchOption result (closed ≡ None) (λ _. closed ≡ Some (A.bytes area.new)) }
    ensures before { take start (A.bytes area.new) ≡ take start (A.bytes area.old) }
    ensures within { start ≤ length (A.bytes area.new) }
{
    let end = area.len();
    let mut from = start;
    let mut to = start;
    for entry in kept {
        let place = entry.place;
        let new = to + (place - from);
        let bytes = closed_special(long, places, place, new, entry.what)?;
        place_bytes(area, to, from, place, bytes.as_slice());
        to = new + bytes.len();
        from = place + special_size(entry.what);
    }
    place_bytes(area, to, from, end, &[]);
    area.cut(to + (end - from), from - to);
    Some(())
}

// Lists the references, with the places that they have where those branches are short that are short by a table of the long places.
pub(crate) fn list_fixups(
    refs: &mut Refs,
    kept: &[Kept],
    long: &[Option<usize>],
) -> Result<(), AddFault>
    requires { length refs.old.list ≤ refs.old.limit }
    ensures ok { let fixups = kept_fixups (found long.now) 0 kept.now in
        OnOk result (refs.new ≡ with_fixups (refs.old.list ++ fixups) refs.old) }
    ensures err { OnErr result ((added : List Fixup) × (refs.new ≡ with_fixups (refs.old.list ++ added) refs.old)) }
    ensures full { let fixups = kept_fixups (found long.now) 0 kept.now in
        IfErr result (λ fault. fault ≡ Full → refs.old.limit < length refs.old.list + length fixups) }
    ensures room { let fixups = kept_fixups (found long.now) 0 kept.now in
        OnOk result (length refs.old.list + length fixups ≤ refs.old.limit) }
{
    let mut saved = 0;
    for entry in kept {
        if let Special::Refers(target) = entry.what {
            refs.add(Fixup {
                area: AreaName::Code,
                place: entry.place.saturating_sub(saved),
                target,
            })?;
        }
        saved += saving(long, *entry);
    }
    Ok(())
}
