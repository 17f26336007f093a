//! The directives `Abbreviate` and `Lowstring`.
ghost use Rattle.std.specs.Prelude.{IfOk, OnOk, map, ◌≡◌};
ghost use Rattle.inf_characters.specs.Reading.{text_of as read_in};
ghost use Rattle.inf_text.specs.{Declaring.declared_number, Packing.packed};
ghost use Rattle.inf_names.specs.Spellings.{as_name};
ghost use Rattle.inf_compilation.specs.{Context.handed, Meant.found_as, Works.work};
ghost use Rattle.inf_directives.specs.Abbreviations.{abbreviate_header, abbreviation, abbreviation_added, abbreviation_ended};
ghost use Rattle.inf_directives.specs.Abbreviations.{abbreviation_error, abbreviation_findings, abbreviation_with};
ghost use Rattle.inf_directives.specs.Abbreviations.{has_most_abbreviations, low_added, low_named, low_named_by, low_string};
ghost use Rattle.inf_directives.specs.Abbreviations.{low_string_added, low_string_with, named_nothing, or_error, refused_error};
ghost use Rattle.inf_directives.specs.Abbreviations.{low_unless, text_declared};

use inf_compilation::compilation::Compilation;
use inf_compilation::context::Context;
use inf_compilation::findings::Findings;
use inf_expressions::{Finding, UnitError};
use inf_lexer::Place;
use inf_named_values::declarations::{Declared, declare, end_declaration, plainly_known};
use inf_names::meanings::Meaning;
use inf_names::spellings::Name;
use inf_output::Output;
use inf_report::messages::FixedLimit;
use inf_settings::bounds::Bounds;
use inf_settings::setting::Setting;
use inf_text::{AbbrevFault, CharSet, Mode, Text, TextFault, pack, read_text};
use std::alloc::{AllocError, Global};

/// The greatest number of abbreviations: a story has three banks of 32, the first of which has the string variables
/// (Z-Machine Standard 1.1, section 3.3).
const MOST_ABBREVIATIONS: usize = 64;

/// Returns the characters of a text in a character set, or the error of its first fault.
fn read_or_error(
    alloc: Global,
    set: CharSet,
    mode: Mode,
    bytes: &[u8],
) -> Result<Result<Text, UnitError>, AllocError>
    ensures { IfOk result (λ text. text ≡ or_error (read_in set mode bytes.now)) }
{
    match read_text(alloc, bytes, set, mode) {
        Ok(text) => Ok(Ok(text)),
        Err(TextFault::BadCode) => Ok(Err(UnitError::NumberOutOfRange)),
        Err(TextFault::UnknownEscape) => Ok(Err(UnitError::UnknownEscape)),
        Err(TextFault::NoZscii) => Ok(Err(UnitError::NoZscii)),
        Err(TextFault::Memory) => Err(AllocError),
    }
}

// Functions for abbreviations

/// Returns whether there are as many abbreviations as there may be.
fn has_most_abbreviations<B: Bounds>(out: &Output<B>) -> bool
    ensures { result ≡ has_most_abbreviations out.now }
{
    out.tables.low_strings.abbreviation_places().len() >= MOST_ABBREVIATIONS
}

/// Declares a text as an abbreviation, or returns the error where it is refused.
fn declare_text<B: Bounds>(
    text: &Text,
    out: &mut Output<B>,
) -> Result<Option<UnitError>, AllocError>
    ensures error { IfOk result (λ error. error ≡ refused_error (declared_number out.old.texts.declared text.now)) }
    ensures declared { OnOk result (out.new
        ≡ text_declared (refused_error (declared_number out.old.texts.declared text.now)) text.now out.old) }
{
    match out.texts.declare(text) {
        Ok(_) => Ok(None),
        Err(AbbrevFault::Full) => Ok(Some(UnitError::TooMany)),
        Err(AbbrevFault::Repeated | AbbrevFault::TooShort) => {
            Ok(Some(UnitError::WrongAbbreviation))
        }
        Err(AbbrevFault::Memory) => Err(AllocError),
    }
}

/// Adds the low string of an abbreviation, which has these bytes. Where it would pass the limit it is not added, and the limit is passed.
fn add_low<B: Bounds>(bytes: &[u8], out: &mut Output<B>) -> Result<(), AllocError>
    ensures { OnOk result (out.new ≡ low_added B.most bytes.now out.old) }
{
    if !out.tables.low_strings.add_abbreviation(bytes)? {
        out.pass_table(Setting::LowStrings);
    }
    Ok(())
}

/// Adds the low string of a text, unless it was refused. It is packed without abbreviations.
fn add_unless<B: Bounds>(
    alloc: Global,
    refused: Option<UnitError>,
    text: &Text,
    out: &mut Output<B>,
) -> Result<(), AllocError>
    ensures { OnOk result (out.new ≡ low_unless B.most refused text.now out.old) }
{
    match refused {
        Some(_) => Ok(()),
        None => {
            let bytes = pack(alloc, text, None)?;
            add_low(bytes.as_slice(), out)
        }
    }
}

/// Declares one more abbreviation and adds its low string. Where it is refused, returns the error.
fn add_abbreviation<B: Bounds>(
    alloc: Global,
    text: &Text,
    out: &mut Output<B>,
) -> Result<Option<UnitError>, AllocError>
    ensures error { IfOk result (λ error. error ≡ abbreviation_error text.now out.old) }
    ensures added { OnOk result (out.new ≡ abbreviation_added B.most (abbreviation_error text.now out.old) text.now out.old) }
{
    if has_most_abbreviations(out) {
        return Ok(Some(UnitError::TooMany));
    }
    if out.texts.is_late() {
        return Ok(Some(UnitError::WrongAbbreviation));
    }
    let refused = declare_text(text, out)?;
    add_unless(alloc, refused, text, out)?;
    Ok(refused)
}

/// Returns the findings about a text of `Abbreviate`: that of `error`, if there is one.
fn abbreviation_findings(error: Option<UnitError>) -> Findings
    ensures { found_as result ≡ abbreviation_findings error }
{
    let least = match error {
        Some(error) => Some(Finding { order: 0, error }),
        None => None,
    };
    Findings {
        least,
        many: FixedLimit::Abbreviations,
        again: None,
    }
}

/// Ends a text of `Abbreviate`, which begins at `first`. Of `error`, if there is one, the message is told.
fn end_abbreviation<B: Bounds>(
    compilation: &mut Compilation<B>,
    context: &Context<'_>,
    first: Place,
    error: Option<UnitError>,
) -> Result<(), AllocError>
    ensures { OnOk result (work compilation.new ≡ abbreviation_ended B.most (handed context.now) first error (work compilation.old)) }
{
    compilation.end_unit(context, first, false, &abbreviation_findings(error))
}

/// Declares `text`, a text of `Abbreviate` that begins at `first`, as an abbreviation, or tells the error of its fault.
fn abbreviate<B: Bounds>(
    compilation: &mut Compilation<B>,
    context: &Context<'_>,
    first: Place,
    text: Result<Text, UnitError>,
) -> Result<(), AllocError>
    ensures { OnOk result (work compilation.new ≡ abbreviation_with B.most (handed context.now) first text (work compilation.old)) }
{
    match text {
        Err(error) => end_abbreviation(compilation, context, first, Some(error)),
        Ok(text) => {
            let error = add_abbreviation(compilation.alloc, &text, &mut compilation.output)?;
            end_abbreviation(compilation, context, first, error)
        }
    }
}

/// Ends a text of `Abbreviate` before a token at `place`: declares it as an abbreviation, and adds its low string.
///
/// One error is told, at the text: the first fault in it, that there are 64 abbreviations, or that a text was packed
/// before, that this one is declared, or that it is shorter than two characters. Then nothing is declared.
pub fn abbreviation<B: Bounds>(
    compilation: &mut Compilation<B>,
    context: &Context<'_>,
    place: Place,
) -> Result<(), AllocError>
    ensures { OnOk result (work compilation.new ≡ abbreviation B.most (handed context.now) place (work compilation.old)) }
{
    let first = compilation.unit.first_place(place);
    let text = read_or_error(
        compilation.alloc,
        context.set,
        Mode::Abbreviation,
        compilation.unit.tokens.quoted(),
    )?;
    abbreviate(compilation, context, first, text)
}

/// Ends the word `Abbreviate` at `first`, with which nothing can be wrong.
pub fn abbreviate_header<B: Bounds>(
    compilation: &mut Compilation<B>,
    context: &Context<'_>,
    first: Place,
) -> Result<(), AllocError>
    ensures { OnOk result (work compilation.new ≡ abbreviate_header B.most (handed context.now) first (work compilation.old)) }
{
    compilation.end_unit(context, first, false, &Findings::none())
}

// Functions for low strings

/// Declares `name` as 0.
fn name_nothing<B: Bounds>(name: &Name, out: &mut Output<B>) -> Result<(), AllocError>
    ensures { OnOk result (out.new ≡ named_nothing B.most (as_name name.now) out.old) }
{
    declare(name, Meaning::Number(0), out)
}

/// Adds `text` as a low string, which is packed without abbreviations, and declares `name` as that.
fn name_low<B: Bounds>(
    alloc: Global,
    name: &Name,
    text: &Text,
    out: &mut Output<B>,
) -> Result<(), AllocError>
    ensures { OnOk result (out.new ≡ low_named B.most (as_name name.now) text.now out.old) }
{
    let place = out.tables.low_strings.len();
    let packed = out.texts.pack_low(alloc, text)?;
    out.low_string(packed.as_slice())?;
    declare(name, Meaning::LowString(place), out)
}

/// Declares `name` as a new low string of `text`, or as 0 where a fault was found in the text.
fn name_text<B: Bounds>(
    alloc: Global,
    name: &Name,
    text: Result<Text, UnitError>,
    out: &mut Output<B>,
) -> Result<(), AllocError>
    ensures { OnOk result (out.new ≡ low_named_by B.most (as_name name.now) text out.old) }
{
    match text {
        Ok(text) => name_low(alloc, name, &text, out),
        Err(_) => name_nothing(name, out),
    }
}

/// Declares `name` as a new low string of the unit's text, or as 0 where `found` is an error or the text has a fault.
fn add_low_string<B: Bounds>(
    compilation: &mut Compilation<B>,
    context: &Context<'_>,
    name: &Name,
    found: Option<Finding>,
) -> Result<(), AllocError>
    ensures { let before = work compilation.old in OnOk result (work compilation.new ≡ record before {
      output = low_string_added B.most (handed context.now).set found (as_name name.now) before.unit.tokens before.output;
    }) }
{
    if found.is_some() {
        return name_nothing(name, &mut compilation.output);
    }
    let text = read_or_error(
        compilation.alloc,
        context.set,
        Mode::Text,
        compilation.unit.tokens.quoted(),
    )?;
    name_text(compilation.alloc, name, text, &mut compilation.output)
}

/// Ends a `Lowstring`, which begins at `first` and declares `name`; `declared` is the declaration as far as it is known.
fn end_low_string<B: Bounds>(
    compilation: &mut Compilation<B>,
    context: &Context<'_>,
    first: Place,
    name: &Name,
    declared: Declared,
) -> Result<(), AllocError>
    ensures { OnOk result (work compilation.new
        ≡ low_string_with B.most (handed context.now) first (as_name name.now) declared (work compilation.old)) }
{
    add_low_string(compilation, context, name, declared.finding)?;
    end_declaration(
        compilation,
        context,
        first,
        name,
        FixedLimit::Values,
        declared,
    )
}

/// Declares the first of `names` as a constant that is the packed address of a new low string: that of the unit's text. Its directive
/// begins at the place `first`.
///
/// A name that is declared already is an error, told of the name: then there is no low string.
pub fn low_string<B: Bounds>(
    compilation: &mut Compilation<B>,
    context: &Context<'_>,
    first: Place,
    names: &[Name],
) -> Result<(), AllocError>
    ensures { OnOk result (work compilation.new
        ≡ low_string B.most (handed context.now) first (map as_name names.now) (work compilation.old)) }
{
    let Some(name) = names.first() else {
        compilation.pass(true);
        return Ok(());
    };
    let order = compilation.unit.tokens.name_order();
    let declared = plainly_known(compilation, name, order);
    end_low_string(compilation, context, first, name, declared)
}
