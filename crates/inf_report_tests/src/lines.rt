//! The lines of messages, and sinks that take little or fail.
ghost use Rattle.std.specs.Prelude.{None};

use crate::expecting::expect;
use inf_characters::CharSet;
use inf_devices::failures::Failures;
use inf_devices::memory_sink::MemorySink;
use inf_devices::sinks::{Sink, SinkFault};
use inf_report::messages::{FixedLimit, Kind, Location, Message, Told};
use inf_report::own_words::OwnWords;
use inf_report::report::{Report, ReportFault};
use inf_settings::setting::Setting;
use std::alloc::Global;
use std::process::Abort;
use std::test::Fail;

fn at(line: u32) -> Location<'static> {
    Location {
        file: b"t.inf",
        line,
    }
}

fn own(bytes: &[u8], set: CharSet) -> OwnWords<'_> {
    OwnWords { bytes, set }
}

/// A file and the last line that has a number.
const PLACE: Location<'static> = Location {
    file: b"lib/c.h",
    line: 4_294_967_295,
};

/// Errors and their texts.
static ERRORS: [(Message<'static>, &str); 21] = [
    (Message::Syntax(Told::Bytes(b";")), "Syntax error at \";\""),
    (
        Message::Syntax(Told::Quote(b"x")),
        "Syntax error at \"'x'\"",
    ),
    (Message::Syntax(Told::Text), "Syntax error at text"),
    (Message::Syntax(Told::End), "Syntax error at end of file"),
    (
        Message::Declared(b"K", PLACE),
        "\"K\" was declared at lib/c.h(4294967295)",
    ),
    (Message::SystemName(b"self"), "\"self\" is a system name"),
    (Message::WrongKind(Told::Bytes(b"5")), "Wrong kind: \"5\""),
    (Message::Undeclared(b"a"), "\"a\" was never declared"),
    (
        Message::UsedBefore(b"h"),
        "\"h\" was used before its declaration",
    ),
    (
        Message::WrongOpcode(b"adds"),
        "Wrong opcode or operands: \"adds\"",
    ),
    (Message::LabelMissing(b"L"), "Label \"L\" is missing"),
    (Message::LabelTwice(b"L"), "Label \"L\" is given twice"),
    (Message::TooMany(FixedLimit::Locals), "More than 15 locals"),
    (Message::TooMany(FixedLimit::Values), "More than 32 values"),
    (Message::TooMany(FixedLimit::Verbs), "More than 255 verbs"),
    (
        Message::WrongVerb(Told::Bytes(b"'look'")),
        "Wrong verb: \"'look'\"",
    ),
    (Message::NoMain, "No routine \"Main\""),
    (
        Message::LoneConditional,
        "Conditional without its other end",
    ),
    (Message::NotConstant, "Not a constant known here"),
    (Message::BranchTooFar, "Branch too far"),
    (
        Message::ErrorText(OwnWords {
            bytes: b"a \n b  c",
            set: CharSet::Ascii,
        }),
        "a b  c",
    ),
];

/// A call of a report.
#[derive(Clone, Copy)]
enum Part<'a> {
    /// An error at a line, where the lines of the compilation are at another one.
    Error(u32, u32, &'a Message<'a>),
    Fatal(&'a Message<'a>),
    Warning(&'a Message<'a>),
    Plain(OwnWords<'a>),
    Statistic(&'a str, u64),
    End,
}

/// Makes one call of a report.
fn tell(report: &mut Report, to: &mut MemorySink, part: Part<'_>) -> Result<(), ReportFault> {
    match part {
        Part::Error(line, last, message) => report.error(to, at(line), at(last), message),
        Part::Fatal(message) => report.fatal(to, at(1), message),
        Part::Warning(message) => report.warning(to, at(1), message),
        Part::Plain(words) => report.plain(to, words),
        Part::Statistic(word, number) => report.statistic(to, word, number),
        Part::End => report.close(to),
    }
}

/// Makes some calls of a report in turn, and returns the bytes that it wrote.
fn told_of(alloc: Global, report: &mut Report, parts: &[Part<'_>]) -> Result<Vec<u8>, Fail> {
    let mut sink = MemorySink::new(alloc);
    for part in parts {
        tell(report, &mut sink, *part)?;
    }
    Ok(sink.into_bytes())
}

/// Asserts the bytes that a new report writes for the calls of a row.
fn expect_told(
    rt: &impl Abort,
    alloc: Global,
    row: &str,
    parts: &[Part<'_>],
    wanted: &[u8],
) -> Result<(), Fail> {
    let told = told_of(alloc, &mut Report::new(true), parts)?;
    expect(rt, &row, &told.as_slice(), &wanted);
    Ok(())
}

/// Asserts the line of an error.
fn expect_error(
    rt: &impl Abort,
    alloc: Global,
    message: &Message<'_>,
    text: &str,
) -> Result<(), Fail> {
    expect(rt, &text, &message.kind(), &Kind::Error);
    let wanted = format!(in alloc; "t.inf(7): Error: {text}\n")?;
    let parts = [Part::Error(7, 7, message)];
    expect_told(rt, alloc, text, &parts, wanted.as_bytes())
}

/// Asserts the line of the error of each row.
fn expect_errors(rt: &impl Abort, alloc: Global, rows: &[(Message<'_>, &str)]) -> Result<(), Fail> {
    for (message, text) in rows {
        expect_error(rt, alloc, message, text)?;
    }
    Ok(())
}

#[test]
fn tells_errors(rt: HostRuntime) -> Result<(), Fail> {
    expect_errors(&rt, rt.alloc(), &ERRORS)
}

/// Fatal errors, their texts and their numbers.
static FATAL: [(Message<'static>, &str, u8); 6] = [
    (
        Message::Exceeded(Setting::Symbols),
        "MAX_SYMBOLS is exceeded",
        1,
    ),
    (Message::NoInclude(b">x"), "No file \">x\"", 2),
    (Message::TooManyFiles, "More than 16 files open", 3),
    (
        Message::ReadableTooLong,
        "Readable memory is over 65534 bytes",
        6,
    ),
    (
        Message::StoryTooLong(262_144),
        "Story is over 262144 bytes",
        7,
    ),
    (Message::DeepNesting, "Nesting over 64", 9),
];

/// A warning.
static UNUSED: Message<'static> = Message::UnusedLocal(b"x");

/// Asserts that a fatal error has this number, and that its line is all that a report writes.
fn expect_fatal(
    rt: &impl Abort,
    alloc: Global,
    message: &Message<'_>,
    text: &str,
    number: u8,
) -> Result<(), Fail> {
    expect(rt, &text, &message.number(), &number);
    expect(rt, &text, &message.kind(), &Kind::Fatal);
    let wanted = format!(in alloc; "t.inf(1): Fatal error: {text}\n")?;
    let parts = [Part::Fatal(message), Part::Warning(&UNUSED), Part::End];
    expect_told(rt, alloc, text, &parts, wanted.as_bytes())
}

/// Asserts the number and the line of the fatal error of each row.
fn expect_fatals(
    rt: &impl Abort,
    alloc: Global,
    rows: &[(Message<'_>, &str, u8)],
) -> Result<(), Fail> {
    for (message, text, number) in rows {
        expect_fatal(rt, alloc, message, text, *number)?;
    }
    Ok(())
}

/// Asserts the lines of a warning and the end, where warnings are told or not.
fn expect_warning(
    rt: &impl Abort,
    alloc: Global,
    is_told: bool,
    wanted: &[u8],
) -> Result<(), Fail> {
    let mut report = Report::new(is_told);
    let told = told_of(alloc, &mut report, &[Part::Warning(&UNUSED), Part::End])?;
    expect(rt, &is_told, &told.as_slice(), &wanted);
    Ok(())
}

#[test]
fn tells_fatal_errors_and_warnings(rt: HostRuntime) -> Result<(), Fail> {
    let alloc = rt.alloc();
    expect_fatals(&rt, alloc, &FATAL)?;
    let warned = b"t.inf(1): Warning: Local \"x\" is unused\nErrors: 0, warnings: 1\n";
    expect_warning(&rt, alloc, true, warned)?;
    expect_warning(&rt, alloc, false, b"Errors: 0, warnings: 0\n")
}

/// An error that comes often.
static FIVE: Message<'static> = Message::Syntax(Told::Bytes(b"5"));

/// Returns 101 errors, each at its own line, and the end.
fn parts_of_101(alloc: Global) -> Result<Vec<Part<'static>>, Fail> {
    let mut parts = Vec::new(alloc);
    for line in 1..=101_u32 {
        parts.push(Part::Error(line, 1, &FIVE))?;
    }
    parts.push(Part::End)?;
    Ok(parts)
}

/// Returns the lines of the first 100 errors, and the line that ends them.
fn lines_of_100(alloc: Global) -> Result<String, Fail> {
    let mut lines = String::new(alloc);
    for line in 1..=100_u32 {
        let error = format!(in alloc; "t.inf({line}): Error: Syntax error at \"5\"\n")?;
        lines.push_str(error.as_str())?;
    }
    lines.push_str("t.inf(1): Fatal error: Too many errors\n")?;
    Ok(lines)
}

#[test]
fn ends_with_the_hundredth_error(rt: HostRuntime) -> Result<(), Fail> {
    let parts = parts_of_101(rt.alloc())?;
    let mut report = Report::new(true);
    let told = told_of(rt.alloc(), &mut report, parts.as_slice())?;
    let wanted = lines_of_100(rt.alloc())?;
    expect(&rt, &"lines", &told.as_slice(), &wanted.as_bytes());
    expect(&rt, &"errors", &report.errors(), &100);
    expect(&rt, &"over", &report.is_over(), &true);
    Ok(())
}

/// Texts of the source, their character sets, and the lines that they are shown as.
static PLAIN: [(&[u8], CharSet, &[u8]); 6] = [
    (b"x", CharSet::Ascii, b"x\n"),
    (b"", CharSet::Ascii, b"\n"),
    (b"a\t \r\n  b \x0c c\\", CharSet::Ascii, b"a b \x0c c\\\n"),
    (b"\n a\n", CharSet::Latin1, b" a \n"),
    (b"a\xa0\nb\xa0c", CharSet::Latin1, b"a b\xa0c\n"),
    (b"a\xa0\nb", CharSet::Ascii, b"a\xa0 b\n"),
];

/// Asserts the line that the text of each row is shown as.
fn expect_plains(
    rt: &impl Abort,
    alloc: Global,
    rows: &[(&[u8], CharSet, &[u8])],
) -> Result<(), Fail> {
    for (text, set, wanted) in rows {
        let parts = [Part::Plain(own(text, *set))];
        expect_told(rt, alloc, "plain", &parts, wanted)?;
    }
    Ok(())
}

#[test]
fn shows_plain_lines(rt: HostRuntime) -> Result<(), Fail> {
    expect_plains(&rt, rt.alloc(), &PLAIN)?;
    let parts = [Part::Statistic("code", 16)];
    expect_told(&rt, rt.alloc(), "code", &parts, b"code: 16\n")
}

/// Takes two bytes a write, and then fails.
#[derive(Drop)]
struct Small {
    whole: MemorySink,
    room: usize,
    failures: Failures,
}

impl Sink for Small {
    ghost taken = { λ _. None };

    ghost failures = { λ s. s.failures };

    fn write(&mut self, bytes: &[u8]) -> Result<usize, SinkFault> {
        let count = bytes.len().min(2);
        if self.room < count || self.whole.write(&bytes[..count]).is_err() {
            self.failures.add();
            return Err(SinkFault::Device);
        }
        self.room -= count;
        Ok(count)
    }
}

/// Asserts that a report whose sink has `room` for bytes fails, with the first bytes of its line.
fn expect_failure(rt: &impl Abort, alloc: Global, room: usize, line: &[u8]) {
    let mut sink = Small {
        whole: MemorySink::new(alloc),
        room,
        failures: Failures::none(),
    };
    let mut report = Report::new(true);
    let message = Message::ErrorText(own(b"a  b\n c", CharSet::Ascii));
    let answer = report.error(&mut sink, at(12), at(1), &message);
    expect(rt, &room, &answer, &Err(ReportFault::Write));
    expect(rt, &room, &line.starts_with(sink.whole.bytes()), &true);
    expect(rt, &room, &report.errors(), &0);
    expect(rt, &room, &report.is_over(), &false);
}

#[test]
fn tells_where_the_sink_fails(rt: HostRuntime) {
    let line = b"t.inf(12): Error: a  b c\n";
    for room in 0..line.len() {
        expect_failure(&rt, rt.alloc(), room, line);
    }
}
