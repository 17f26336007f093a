//! Routines that are written and closed.
ghost use Rattle.inf_assembler.specs.Routines.{IsOpen, Were, contents_of, moment_of};

use crate::areas::bytes_of;
use crate::fixups::{fixup, fixups_of};
use crate::item_words::items_of;
use crate::items::{Fault, Item, write};
use inf_area::{Area, FlatArea, PagedArea, Refs};
use inf_assembler::{Limits, Routine, RoutineKind};
use inf_test_lines::{Failing, debugged, number_or, one_or_both, word};
use std::alloc::{AllocError, Global};

/// The head of a routine's line.
#[derive(Clone, Copy)]
struct Head {
    kind: RoutineKind,
    locals: u8,
    limits: Limits,
    refs: usize,
    before: usize,
    room: Option<usize>,
}

/// The items of a routine: those up to the mark, those that are taken back, and those behind them.
#[derive(Drop)]
struct Items {
    front: Vec<Item>,
    undone: Vec<Item>,
    rest: Vec<Item>,
}

/// Returns the head of a line of a routine of this kind.
fn head_of(kind: RoutineKind, line: &str) -> Head {
    let (head, _) = line.split_once(" | ").unwrap_or((line, ""));
    Head {
        kind,
        locals: number_or(head, 1, 0).min(15) as u8,
        limits: Limits {
            labels: number_or(head, 2, 1000),
            code: number_or(head, 3, 262_144),
        },
        refs: number_or(head, 4, 10_000),
        before: number_or(head, 5, 0),
        room: word(head, 6).parse().ok(),
    }
}

/// Returns the items of a line.
fn parts_of(alloc: Global, line: &str) -> Result<Items, AllocError> {
    let (front, behind) = line.split_once(" | mark").unwrap_or((line, ""));
    let (undone, rest) = behind.split_once(" | back").unwrap_or((behind, ""));
    Ok(Items {
        front: items_of(alloc, front)?,
        undone: items_of(alloc, undone)?,
        rest: items_of(alloc, rest)?,
    })
}

/// Adds the refusal of an item, or the bytes of the area where the item asks for them.
fn tell<A: Area>(
    alloc: Global,
    told: &mut String,
    area: &A,
    item: &Item,
    written: Result<(), Fault>,
) -> Result<(), AllocError> {
    if let Err(fault) = written {
        told.push_str(format!(in alloc; "{fault:?}; ")?.as_str())?;
    }
    if let Item::Bytes = item {
        told.push_str(format!(in alloc; "{}; ", bytes_of(alloc, area)?)?.as_str())?;
    }
    Ok(())
}

/// Writes an item, and tells why it was refused.
fn write_one<A: Area>(
    alloc: Global,
    routine: &mut Routine,
    area: &mut A,
    refs: &Refs,
    item: &Item,
    told: &mut String,
) -> Result<(), AllocError>
    requires { IsOpen routine.old (A.bytes area.old) }
    ensures open_still { IsOpen routine.new (A.bytes area.new) }
    ensures behind { let before = contents_of routine.old (A.bytes area.old) in
        Were before (moment_of before) (contents_of routine.new (A.bytes area.new)) }
{
    let written = write(routine, area, refs, item);
    tell(alloc, told, area, item, written)
}

/// Writes items, and tells which were refused.
fn write_all<A: Area>(
    alloc: Global,
    routine: &mut Routine,
    area: &mut A,
    refs: &Refs,
    items: &[Item],
    told: &mut String,
) -> Result<(), AllocError>
    requires { IsOpen routine.old (A.bytes area.old) }
    ensures open_still { IsOpen routine.new (A.bytes area.new) }
    ensures behind { let before = contents_of routine.old (A.bytes area.old) in
        Were before (moment_of before) (contents_of routine.new (A.bytes area.new)) }
{
    for item in items {
        write_one(alloc, routine, area, refs, item, told)?;
    }
    Ok(())
}

/// Writes and closes a routine, and returns the refusals and the way in which it was closed.
fn told_of<A: Area>(
    alloc: Global,
    area: &mut A,
    refs: &mut Refs,
    head: &Head,
    items: &Items,
) -> Result<String, AllocError> {
    let mut open = match Routine::open(alloc, area, head.locals.min(15), head.limits) {
        Ok(open) => open,
        Err(fault) => return debugged(alloc, &fault),
    };
    let mut told = String::new(alloc);
    write_all(alloc, &mut open, area, refs, &items.front, &mut told)?;
    let mark = open.mark(area);
    write_all(alloc, &mut open, area, refs, &items.undone, &mut told)?;
    open.back(area, mark);
    write_all(alloc, &mut open, area, refs, &items.rest, &mut told)?;
    match open.close(area, refs, head.kind) {
        Ok(closed) => format!(in alloc; "{told}{closed:?}"),
        Err(fault) => format!(in alloc; "{told}{fault:?}"),
    }
}

/// Puts the bytes in front into an area, each with a fixup.
fn begin<A: Area>(area: &mut A, refs: &mut Refs, count: usize) -> Result<(), AllocError> {
    for place in 0..count {
        area.push(0xFF)?;
        let _ = refs.add(fixup(place));
    }
    Ok(())
}

/// Writes a routine in an area, behind the bytes before it, and returns the refusals, the bytes and the fixups.
fn in_area<A: Area>(
    alloc: Global,
    area: &mut A,
    refs: &mut Refs,
    head: &Head,
    items: &Items,
) -> Result<String, AllocError> {
    begin(area, refs, head.before)?;
    let told = told_of(alloc, area, refs, head, items)?;
    let bytes = bytes_of(alloc, area)?;
    format!(in alloc; "{told}; {bytes}; {}", fixups_of(alloc, refs)?)
}

/// Returns the answer for a routine in an area that has no bytes.
fn in_new<A: Area + Drop>(
    alloc: Global,
    mut area: A,
    head: &Head,
    items: &Items,
) -> Result<String, AllocError> {
    let mut refs = Refs::new(alloc, head.refs);
    in_area(alloc, &mut area, &mut refs, head, items)
}

/// Returns the answer for a routine in areas of both kinds, or in one that lacks memory once.
fn told_in(alloc: Global, head: &Head, items: &Items) -> Result<String, AllocError> {
    let inner = FlatArea::new(alloc);
    if head.room.is_some() {
        let room = head.room;
        return in_new(alloc, Failing { inner, room }, head, items);
    }
    let flat = in_new(alloc, inner, head, items)?;
    let paged = in_new(alloc, PagedArea::new(alloc), head, items)?;
    one_or_both(alloc, flat, paged)
}

/// Returns the answer to the line of a routine of this kind.
pub(crate) fn answer(alloc: Global, kind: RoutineKind, line: &str) -> Result<String, AllocError> {
    let items = parts_of(alloc, line)?;
    told_in(alloc, &head_of(kind, line), &items)
}
