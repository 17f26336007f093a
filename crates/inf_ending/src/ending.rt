//! The end of a compilation, and its outcome.
ghost use Rattle.std.specs.Prelude.{◌≡◌, IfOk, OnOk, Some, option_map};
ghost use Rattle.inf_area.specs.Scales.{most_bytes};
ghost use Rattle.inf_report.specs.Meant.{meant};
ghost use Rattle.inf_story.specs.Stories.{too_long};
ghost use Rattle.inf_unit.specs.{Messages.with_closing, Messages.with_error, Messages.with_fatal, Names.main_of, Names.with_all_undeclared};
ghost use Rattle.inf_compilation.specs.{Actions.begun_at, Works.work as work_of};
ghost use Rattle.inf_ending.specs.Ending.{begun, begun_from, compiled, fields_of, finished, first_line, is_clean, laid, linked, missing};
ghost use Rattle.inf_ending.specs.Ending.{named, refused, seen, statistics_by, told_of, first_place};

use crate::compiled::Status;
use inf_area::{Scale, Value};
use inf_code::code::Code;
use inf_compilation::compilation::Compilation;
use inf_lexer::{Place, Stack};
use inf_link::HeaderFields;
use inf_output::Contents;
use inf_report::messages::{Location, Message};
use inf_settings::bounds::Bounds;
use inf_story::{Counts, LinkFault, Statistics, Story, story, values_of};
use inf_unit::messages::{Diagnostics, location};
use inf_unit::names::{main_of, tell_undeclared};
use std::alloc::{AllocError, Global};

/// The outcome of a compilation at its end: the lines of its last messages, its story where no error was found, and how it ended.
#[derive(Drop)]
pub struct Outcome {
    pub messages: Vec<u8>,
    pub story: Option<Vec<u8>>,
    pub status: Status,
}

/// The numbers that are told of a story when it is laid out.
#[derive(Clone, Copy)]
pub(crate) struct Telling {
    release: u16,
    serial: [u8; 6],
    has_statistics: bool,
    /// The number of names of its source.
    symbols: usize,
}

fn told_of<B: Bounds>(date: &[u8; 6], work: &Compilation<B>) -> Telling
    ensures { result ≡ told_of date.now (work_of work.now) }
{
    let serial = work.told.serial.unwrap_or(*date);
    Telling {
        release: work.told.release,
        serial,
        has_statistics: work.letters.counts(),
        symbols: work.output.names.len(),
    }
}

/// The place of the messages about a whole source.
pub const FIRST_LINE: Place = Place { file: 0, line: 1 };

/// Ends the compilation of a source that was read. Code begins, unless it has begun. A name that was used and never declared is an
/// error, and so is the lack of a routine `Main`. A story comes only where no error was found.
pub(crate) fn finish<B: Bounds>(
    alloc: Global,
    files: &Stack,
    serial: &[u8; 6],
    mut work: Compilation<B>,
) -> Result<Outcome, AllocError>
    ensures { IfOk result (λ t. seen t ≡ finished B.most serial.now files.now.names (work_of work)) }
{
    tell_last(files, &mut work)?;
    finish_told(alloc, files, serial, work)
}

/// Begins code, unless it has begun, and tells each name that was used and never declared.
fn tell_last<B: Bounds>(files: &Stack, work: &mut Compilation<B>) -> Result<(), AllocError>
    ensures { let begun = begun_at B.most files.now.names first_place (work_of work.old) in OnOk result (work_of work.new ≡ record begun
        { report = with_all_undeclared files.now.names begun.output.names.names begun.report }) }
{
    work.begin(files, FIRST_LINE)?;
    tell_undeclared(&work.output.names, files, &mut work.report)
}

/// Ends a compilation of which all is told but for the lack of a routine `Main`.
fn finish_told<B: Bounds>(
    alloc: Global,
    files: &Stack,
    serial: &[u8; 6],
    work: Compilation<B>,
) -> Result<Outcome, AllocError>
    ensures { IfOk result (λ t. seen t ≡ begun (told_of serial.now (work_of work)) files.now.names work.output work.report
        (main_of work.output.names)) }
{
    let main = main_of(&work.output.names);
    finish_at(alloc, files, serial, main, work)
}

/// Ends a compilation of which all is told, where `main` is the place in the code of the first routine, if there is one. The lack
/// of this routine is an error.
fn finish_at<B: Bounds>(
    alloc: Global,
    files: &Stack,
    serial: &[u8; 6],
    main: Option<usize>,
    work: Compilation<B>,
) -> Result<Outcome, AllocError>
    ensures { IfOk result (λ t. seen t ≡ begun (told_of serial.now (work_of work)) files.now.names work.output work.report main) }
{
    match main {
        Some(main) => finish_from(alloc, files, serial, main, work),
        None => failed(files, report_of(work), &Message::NoMain),
    }
}

/// Ends a compilation of which all is told, whose first routine is at the place `main` in the code.
fn finish_from<B: Bounds>(
    alloc: Global,
    files: &Stack,
    serial: &[u8; 6],
    main: usize,
    work: Compilation<B>,
) -> Result<Outcome, AllocError>
    ensures { IfOk result (λ t. seen t ≡ begun_from (told_of serial.now (work_of work)) files.now.names main work.output work.report) }
{
    if !is_clean(&work.report) {
        return refused(report_of(work));
    }
    laid(alloc, files, told_of(serial, &work), main, work)
}

/// Returns whether no error and no fatal message was told.
fn is_clean(report: &Diagnostics) -> bool
    ensures { result ≡ is_clean report.now }
{
    !report.is_over() && report.errors() == 0
}

/// Returns the outcome of a compilation with an error about the whole source.
fn failed(
    files: &Stack,
    mut report: Diagnostics,
    message: &Message<'_>,
) -> Result<Outcome, AllocError>
    ensures { let line = first_line files.now.names in
        IfOk result (λ t. seen t ≡ refused (with_error line line (meant message.now) report)) }
{
    let at = location(files, FIRST_LINE);
    report.error(at, at, message)?;
    refused(report)
}

/// Returns the outcome of a compilation with a fatal error about the whole source.
fn given_up(
    files: &Stack,
    mut report: Diagnostics,
    message: &Message<'_>,
) -> Result<Outcome, AllocError>
    ensures { IfOk result (λ t. seen t ≡ refused (with_fatal (first_line files.now.names) (meant message.now) report)) }
{
    let at = location(files, FIRST_LINE);
    report.fatal(at, message)?;
    refused(report)
}

/// Returns the messages of `work`, and gives up the rest.
fn report_of<B: Bounds>(work: Compilation<B>) -> Diagnostics
    ensures { result ≡ work.report }
{
    let (_, report) = work.into_parts();
    report
}

/// Returns the code of `work`, the contents of its story beside the code, and its messages.
fn parts_of<B: Bounds>(work: Compilation<B>) -> (Code<B>, Contents<B>, Diagnostics)
    ensures { (result.0 ≡ work.output.code) × (result.1.names ≡ work.output.names) × (result.1.strings ≡ work.output.strings)
        × (result.1.tables ≡ work.output.tables) × (result.2 ≡ work.report) }
{
    let (output, report) = work.into_parts();
    let (code, contents) = output.into_parts();
    (code, contents, report)
}

/// Ends the compilation of a source without an error, in which the routine at the place `main` is called first. A name that is no
/// number in a story is an error.
fn laid<B: Bounds>(
    alloc: Global,
    files: &Stack,
    told: Telling,
    main: usize,
    work: Compilation<B>,
) -> Result<Outcome, AllocError>
    ensures { IfOk result (λ t. seen t ≡ laid told files.now.names main work.output work.report) }
{
    let (code, contents, report) = parts_of(work);
    match values_of(alloc, &contents.names) {
        Ok(names) => named(alloc, files, told, main, names, code, contents, report),
        Err(fault) => Err(fault),
    }
}

/// Ends the compilation with the story in which `names` are the values of names. Without these values one of the names is no number
/// in a story, which is an error.
fn named<B: Bounds>(
    alloc: Global,
    files: &Stack,
    told: Telling,
    main: usize,
    names: Option<Vec<Value>>,
    code: Code<B>,
    contents: Contents<B>,
    report: Diagnostics,
) -> Result<Outcome, AllocError>
    ensures { IfOk result (λ t. seen t ≡ named told files.now.names main code contents.strings contents.tables report
        (option_map (λ v. v.items) names)) }
{
    match names {
        Some(names) => linked(alloc, files, told, main, names, code, contents, report),
        None => failed(files, report, &Message::NotConstant),
    }
}

/// Returns the most bytes of a story whose packed addresses are multiplied by `scale`.
#[tactic(auto, using(crate::proofs::Endings::most_is_small))]
fn most_of(scale: Scale) -> u32
    ensures { result ≡ most_bytes scale }
{
    scale.most_bytes() as u32
}

/// Ends the compilation with its story. A story that would be too long is a fatal error.
fn linked<B: Bounds>(
    alloc: Global,
    files: &Stack,
    told: Telling,
    main: usize,
    names: Vec<Value>,
    code: Code<B>,
    contents: Contents<B>,
    report: Diagnostics,
) -> Result<Outcome, AllocError>
    ensures { let strings = contents.strings in let tables = contents.tables in
        IfOk result (λ t. seen t ≡ linked told files.now.names main names.items code strings tables report
        (too_long (fields_of told code) main code.finished strings.bytes tables)) }
{
    let scale = code.scale();
    let serial = told.serial;
    let fields = HeaderFields {
        release: told.release,
        serial,
        scale,
    };
    let counts = Counts::of(told.symbols, &code, &contents.tables);
    let Contents {
        strings,
        tables,
        ..
    } = contents;
    match story(
        alloc,
        fields,
        main,
        names,
        code,
        strings.into_area(),
        tables,
    ) {
        Ok(story) => compiled(story, told.has_statistics, counts, report),
        Err(LinkFault::ReadableTooLong) => given_up(files, report, &Message::ReadableTooLong),
        Err(LinkFault::StoryTooLong) => {
            given_up(files, report, &Message::StoryTooLong(most_of(scale)))
        }
        Err(LinkFault::Memory) => Err(AllocError),
    }
}

/// Tells the statistics, where they are wanted.
fn tell_statistics(
    has_statistics: bool,
    statistics: Statistics,
    report: &mut Diagnostics,
) -> Result<(), AllocError>
    ensures { OnOk result (report.new ≡ statistics_by has_statistics statistics report.old) }
{
    if has_statistics {
        statistics.tell(report)
    } else {
        Ok(())
    }
}

/// Returns the outcome of a compilation without an error, for which `counts` are the counts of its source.
fn compiled(
    story: Story,
    has_statistics: bool,
    counts: Counts,
    mut report: Diagnostics,
) -> Result<Outcome, AllocError>
    ensures { IfOk result (λ t. seen t
        ≡ compiled (statistics_by has_statistics (record { counts = counts; sizes = story.sizes }) report) story.bytes) }
{
    let statistics = Statistics {
        counts,
        sizes: story.sizes(),
    };
    tell_statistics(has_statistics, statistics, &mut report)?;
    report.close()?;
    Ok(Outcome {
        messages: report.into_lines(),
        story: Some(story.into_bytes()),
        status: Status::Success,
    })
}

/// Returns the outcome of a compilation with an error or a fatal one.
fn refused(mut report: Diagnostics) -> Result<Outcome, AllocError>
    ensures { IfOk result (λ t. seen t ≡ refused report) }
{
    report.close()?;
    Ok(Outcome {
        messages: report.into_lines(),
        story: None,
        status: Status::Errors,
    })
}

/// Returns the outcome of a source with the name `file` that is not there.
pub fn no_file(alloc: Global, file: &[u8]) -> Result<Outcome, AllocError>
    ensures { IfOk result (λ t. seen t ≡ missing file.now) }
{
    let mut report = Diagnostics::new(alloc, true);
    let at = Location {
        file,
        line: FIRST_LINE.line,
    };
    report.fatal(at, &Message::NoSource(file))?;
    refused(report)
}
