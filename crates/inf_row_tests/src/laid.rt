//! Routines of expressions, and their answers.
ghost use Rattle.std.specs.Prelude.{◌≡◌};
ghost use Rattle.inf_code.specs.Code.{code_limits};
ghost use Rattle.inf_settings.specs.declared.setting.Setting.{Setting};
ghost use Rattle.inf_row_tests.specs.Most.{AreUsual};

use crate::expressions::{HERE, trees};
use crate::laying::{Laying, Way, way_of};
use inf_area::{Area, AreaName, PagedArea, Refs, Scale, Target};
use inf_arrays::{Arrays, Globals};
use inf_assembler::{CloseFault, RoutineKind};
use inf_code::code::{Code, CodeLimits};
use inf_dictionary::Dictionary;
use inf_expressions::Forest;
use inf_names::hashing::NameHashing;
use inf_names::symbols::Symbols;
use inf_output::{Output, Strings, Texts};
use inf_scanner::Place;
use inf_settings::bounds::Bounds;
use inf_settings::setting::Setting;
use inf_tables::{Limits, LowStrings, Tables, World};
use inf_templates::Tasks;
use inf_test_lines::{bytes_in, debugged, number_or, text_of, word};
use inf_verbs::{Actions, ParsingRoutines, Verbs};
use std::alloc::{AllocError, Global};
use std::marker::Brand;

/// Adds the names that were used.
fn add_names<B: Bounds>(
    alloc: Global,
    told: &mut String,
    names: &Symbols<Place, B>,
) -> Result<(), AllocError> {
    told.push_str("; names")?;
    for number in 0..names.len() {
        if let Some((spelled, _)) = names.use_at(number) {
            told.push(' ')?;
            told.push_str(text_of(spelled))?;
        }
    }
    Ok(())
}

/// Puts the numbers of names into their places: from 1000 on in hexadecimal digits.
fn fill(area: &mut PagedArea, refs: &Refs) {
    for fixup in refs.as_slice() {
        if let Target::Name(name) = fixup.target {
            let number = 0x1000 + (name % 0x1000) as u16;
            if fixup.place.saturating_add(1) < area.len() {
                area.patch_word(fixup.place, number);
            }
        }
    }
}

/// Appends the bytes of an area behind its first routine.
fn add_bytes(alloc: Global, told: &mut String, area: &PagedArea) -> Result<(), AllocError> {
    for byte in bytes_in(alloc, area)?.iter().skip(8) {
        told.push_str(format!(in alloc; " {byte:02X}")?.as_str())?;
    }
    Ok(())
}

/// How the laying of expressions ended: whether memory sufficed, the limit that was passed, and whether the routine was closed.
#[derive(Clone, Copy)]
struct End {
    laid: Result<(), AllocError>,
    full: Option<Setting>,
    closed: Result<(), CloseFault>,
}

/// Returns the bytes of the routine and its names in words, or the limit that was passed or the fault.
fn told_of<B: Bounds>(
    alloc: Global,
    end: End,
    names: &Symbols<Place, B>,
    area: &mut PagedArea,
    refs: &Refs,
) -> Result<String, AllocError> {
    end.laid?;
    if let Some(limit) = end.full {
        return format!(in alloc; "Full({limit:?})");
    }
    if let Err(fault) = end.closed {
        return debugged(alloc, &fault);
    }
    fill(area, refs);
    let mut told = String::from_str(alloc, "bytes")?;
    add_bytes(alloc, &mut told, area)?;
    add_names(alloc, &mut told, names)?;
    Ok(told)
}

/// Puts code into an area, and returns the bytes of its routine and its names in words, or the limit that was passed or the fault.
fn told_area<B: Bounds>(
    alloc: Global,
    end: End,
    names: &Symbols<Place, B>,
    code: Code<B>,
    refs: &mut Refs,
) -> Result<String, AllocError> {
    match code.into_area(Target::Place(AreaName::Code, 8), refs) {
        Ok(mut area) => told_of(alloc, end, names, &mut area, refs),
        Err(_) => Err(AllocError),
    }
}

/// Closes the routine of an output behind a laying, and returns its bytes and names in words, or the limit that was passed or the fault.
fn told_closed<B: Bounds>(
    alloc: Global,
    laid: Result<(), AllocError>,
    out: Output<B>,
    refs: &mut Refs,
) -> Result<String, AllocError> {
    let full = out.full();
    let (mut code, contents) = out.into_parts();
    let end = End {
        laid,
        full,
        closed: code.close(RoutineKind::Plain),
    };
    told_area(alloc, end, &contents.names, code, refs)
}

/// Lays some expressions in a way in the first routine of an output, and returns the answer to them.
fn told_by<B: Bounds>(
    alloc: Global,
    way: Way,
    forest: &Forest,
    out: Output<B>,
    refs: &mut Refs,
) -> Result<String, AllocError> {
    let mut laying = Laying {
        tasks: Tasks::new(alloc),
        out,
    };
    let laid = laying.begin(alloc, way, forest);
    told_closed(alloc, laid, laying.out, refs)
}

/// The limits of names and of code.
#[derive(Clone, Copy)]
struct Most {
    names: u32,
    code: CodeLimits,
}

/// Returns the limits that a way gives.
fn most_of(way: &str) -> Most {
    Most {
        names: word(way, 2).parse().unwrap_or(10_000),
        code: CodeLimits {
            labels: number_or(way, 3, 1_000),
            code: number_or(way, 4, 262_144),
            refs: number_or(way, 5, 50_000),
        },
    }
}

/// Returns tables of which nothing is used.
fn tables<B: Bounds>(alloc: Global) -> Tables<B>
    requires { AreUsual B.most }
{
    let limits = Limits {
        objects: 640,
        property_bytes: 30_000,
    };
    Tables {
        dictionary: Dictionary::new(alloc, 2_000),
        arrays: Arrays::new(alloc, 10_000),
        globals: Globals::new(alloc),
        world: World::new(alloc, limits),
        verbs: Verbs::new(alloc, 200, 16_000),
        actions: Actions::new(alloc, 200),
        parsing: ParsingRoutines::new(alloc),
        low_strings: LowStrings::new(alloc, 2_048),
    }
}

/// Makes an output of code and names, and nothing else.
fn output_of<B: Bounds>(alloc: Global, names: Symbols<Place, B>, code: Code<B>) -> Output<B>
    requires strings { 262144 ≡ B.most Setting.Strings }
    requires others { AreUsual B.most }
{
    let strings = Strings::new(alloc, 262_144, Scale::Four);
    let seen = Symbols::new(alloc, u32::MAX, false, NameHashing::new(b""));
    let texts = Texts::new(alloc);
    Output::new(code, strings, tables::<B>(alloc), names, texts, seen, HERE)
}

/// Returns the answer to a line of expressions.
pub(crate) fn answer(alloc: Global, line: &str) -> Result<String, AllocError> {
    let (text, spelled) = line.split_once(" : ").unwrap_or((line, ""));
    match way_of(text) {
        Some(way) => answer_under::<Brand>(alloc, most_of(text), way, spelled.as_bytes()),
        None => String::from_str(alloc, "no way"),
    }
}

/// Returns the answer to expressions that are spelled, with the limits `most`.
fn answer_under<B: Bounds>(
    alloc: Global,
    most: Most,
    way: Way,
    spelled: &[u8],
) -> Result<String, AllocError>
    requires names { most.names ≡ B.most Setting.Symbols }
    requires code { most.code ≡ code_limits B.most }
    requires strings { 262144 ≡ B.most Setting.Strings }
    requires others { AreUsual B.most }
{
    let mut names = Symbols::<Place, B>::new(alloc, most.names, false, NameHashing::new(b""));
    let forest = trees(alloc, &mut names, text_of(spelled))?;
    let code = Code::new(alloc, most.code, Scale::Four)?;
    let mut refs = Refs::new(alloc, usize::MAX);
    told_by(
        alloc,
        way,
        &forest,
        output_of(alloc, names, code),
        &mut refs,
    )
}
