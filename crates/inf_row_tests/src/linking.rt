//! Stories that are linked of a script's areas.
use crate::script::{Piece, Put, Script};
use inf_area::{Area, AreaName, Fixup, FlatArea, PagedArea, Refs};
use inf_link::{Areas, HeaderFields, Link, LinkFault, Story, Targets};
use inf_test_lines::{Digits, add_runs, debugged, one_or_both};
use std::alloc::{AllocError, Global};

/// An area that can be made.
trait Made: Area + Drop {
    /// Makes an area with no bytes.
    fn made(alloc: Global) -> Self;
}

impl Made for FlatArea {
    fn made(alloc: Global) -> FlatArea {
        FlatArea::new(alloc)
    }
}

impl Made for PagedArea {
    fn made(alloc: Global) -> PagedArea {
        PagedArea::new(alloc)
    }
}

/// Returns areas with no bytes.
fn areas<A: Made>(alloc: Global) -> Areas<A> {
    Areas {
        low_strings: A::made(alloc),
        abbreviations: A::made(alloc),
        property_defaults: A::made(alloc),
        objects: A::made(alloc),
        property_tables: A::made(alloc),
        class_numbers: A::made(alloc),
        individual_tables: A::made(alloc),
        globals: A::made(alloc),
        arrays: A::made(alloc),
        grammar: A::made(alloc),
        actions: A::made(alloc),
        parsing_routines: A::made(alloc),
        dictionary: A::made(alloc),
        code: A::made(alloc),
        strings: A::made(alloc),
    }
}

/// Appends bytes to the area of this name.
fn append<A: Area>(areas: &mut Areas<A>, name: AreaName, bytes: &[u8]) -> Result<(), AllocError> {
    match name {
        AreaName::LowStrings => areas.low_strings.append(bytes),
        AreaName::Abbreviations => areas.abbreviations.append(bytes),
        AreaName::PropertyDefaults => areas.property_defaults.append(bytes),
        AreaName::Objects => areas.objects.append(bytes),
        AreaName::PropertyTables => areas.property_tables.append(bytes),
        AreaName::ClassNumbers => areas.class_numbers.append(bytes),
        AreaName::IndividualTables => areas.individual_tables.append(bytes),
        AreaName::Globals => areas.globals.append(bytes),
        AreaName::Arrays => areas.arrays.append(bytes),
        AreaName::Grammar => areas.grammar.append(bytes),
        AreaName::Actions => areas.actions.append(bytes),
        AreaName::ParsingRoutines => areas.parsing_routines.append(bytes),
        AreaName::Dictionary => areas.dictionary.append(bytes),
        AreaName::Code => areas.code.append(bytes),
        AreaName::Strings => areas.strings.append(bytes),
    }
}

/// Appends all of `from` to targets.
fn copy_to(targets: &mut Targets, from: &Targets) -> Result<(), AllocError> {
    targets.names.extend_from_slice(&from.names)?;
    targets
        .property_tables
        .extend_from_slice(&from.property_tables)?;
    targets
        .individual_tables
        .extend_from_slice(&from.individual_tables)?;
    targets.verbs.extend_from_slice(&from.verbs)?;
    targets.words.extend_from_slice(&from.words)?;
    targets.last_object = from.last_object;
    Ok(())
}

/// Appends `put` to an area once.
fn put_once<A: Area>(
    areas: &mut Areas<A>,
    fixups: &mut Vec<Fixup>,
    area: AreaName,
    put: Put,
) -> Result<(), AllocError> {
    match put {
        Put::One(byte) => append(areas, area, &[byte]),
        Put::Two(bytes) => append(areas, area, &bytes),
        Put::Later(target) => {
            let place = areas.get(area).len();
            fixups.push(Fixup {
                area,
                place,
                target,
            })?;
            append(areas, area, &[0, 0])
        }
    }
}

/// Appends a piece to its area as often as it says.
fn put_piece<A: Area>(
    areas: &mut Areas<A>,
    fixups: &mut Vec<Fixup>,
    piece: &Piece,
) -> Result<(), AllocError> {
    for _ in 0..piece.count {
        put_once(areas, fixups, piece.area, piece.put)?;
    }
    Ok(())
}

/// Returns `fixups` as references, in order or in reverse.
fn refs_of(alloc: Global, fixups: &[Fixup], is_reversed: bool) -> Result<Refs, AllocError> {
    let mut refs = Refs::new(alloc, fixups.len());
    for place in 0..fixups.len() {
        let from = if is_reversed {
            fixups.len() - 1 - place
        } else {
            place
        };
        if refs.add(fixups[from]).is_err() {
            return Err(AllocError);
        }
    }
    Ok(refs)
}

/// Appends the pieces of a script to areas and its targets to `targets`, and returns its fixups.
fn put_all<A: Area>(
    alloc: Global,
    areas: &mut Areas<A>,
    targets: &mut Targets,
    script: &Script,
    is_reversed: bool,
) -> Result<Refs, AllocError> {
    copy_to(targets, &script.targets)?;
    let mut fixups = Vec::from_slice(alloc, &script.fixups)?;
    for piece in &script.pieces {
        put_piece(areas, &mut fixups, piece)?;
    }
    refs_of(alloc, &fixups, is_reversed)
}

/// Returns the story of a script, or the reason why there is none.
fn linked<A: Made>(
    alloc: Global,
    script: &Script,
    fields: HeaderFields,
    is_reversed: bool,
) -> Result<Result<Story, LinkFault>, AllocError> {
    let mut areas: Areas<A> = areas(alloc);
    let mut targets = Script::new(alloc).targets;
    match put_all(alloc, &mut areas, &mut targets, script, is_reversed) {
        Ok(refs) => Ok(Link::new(alloc, areas, refs, targets, fields).link()),
        Err(AllocError) => Err(AllocError),
    }
}

/// Returns bytes as numbers, two by two.
fn pairs_of(alloc: Global, bytes: &[u8]) -> Result<Vec<u16>, AllocError> {
    let mut pairs = Vec::new(alloc);
    for pair in bytes.chunks_exact(2) {
        pairs.push(u16::from_be_bytes([pair[0], pair[1]]))?;
    }
    Ok(pairs)
}

/// Returns the lengths and the bytes of a story in words.
fn told_story(alloc: Global, story: &Story) -> Result<String, AllocError> {
    let sizes = story.sizes();
    let pairs = pairs_of(alloc, story.as_slice())?;
    let mut told = format!(in alloc;
        "code {}, strings {}, readable {}, story {}:",
        sizes.code, sizes.strings, sizes.readable, sizes.story
    )?;
    add_runs(alloc, &mut told, Digits::Four, pairs.as_slice())?;
    Ok(told)
}

/// Returns the answer for a script in areas of a kind.
fn told<A: Made>(
    alloc: Global,
    script: &Script,
    fields: HeaderFields,
    is_reversed: bool,
) -> Result<String, AllocError> {
    match linked::<A>(alloc, script, fields, is_reversed)? {
        Ok(story) => told_story(alloc, &story),
        Err(fault) => debugged(alloc, &fault),
    }
}

/// Returns the answer for the story of a script: in flat areas, and in paged ones with its fixups in reverse.
pub(crate) fn answer(
    alloc: Global,
    script: &Script,
    fields: HeaderFields,
) -> Result<String, AllocError> {
    let flat = told::<FlatArea>(alloc, script, fields, false)?;
    let paged = told::<PagedArea>(alloc, script, fields, true)?;
    one_or_both(alloc, flat, paged)
}
