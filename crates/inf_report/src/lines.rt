//! The lines of messages.
ghost use Rattle.std.specs.Prelude.{◌≡◌, ◌++◌, codes};
ghost use Rattle.inf_report.specs.{Meant.located, Meant.meant, Meant.worded, Messages.TooManyErrors, Messages.line_of, Messages.place};
ghost use Rattle.inf_report.specs.{OwnWords.shown, Reports.closing, Reports.ending, Wordings.said, Writing.Writes};
ghost use Rattle.inf_report.specs.{declared.messages.Kind.TheVariants.Error, declared.messages.Kind.TheVariants.Fatal};

use crate::messages::{Kind, Location, Message};
use crate::own_words::{OwnWords, write_shown};
use crate::pieces::{ReportFault, write_bytes, write_pieces};
use crate::wordings::Wording;
use inf_devices::sinks::Sink;
use itoa::Buffer;

/// Writes the line of a message of a kind, at a place.
pub(crate) fn write_line<S: Sink>(
    to: &mut S,
    kind: Kind,
    at: Location<'_>,
    message: &Message<'_>,
) -> Result<(), ReportFault>
    ensures { Writes (S.taken to.old) (S.taken to.new) (S.failures to.old) (S.failures to.new)
        (line_of kind (located at.entry) (meant message.now)) result }
{
    write_place(to, at)?;
    write_bytes(to, kind.severity())?;
    write_text(to, message.wording())?;
    write_bytes(to, b"\n")
}

/// Writes a line of a file, as `file(line)`.
fn write_place<S: Sink>(to: &mut S, at: Location<'_>) -> Result<(), ReportFault>
    ensures { Writes (S.taken to.old) (S.taken to.new) (S.failures to.old) (S.failures to.new)
        (place at.entry.file.now at.entry.line) result }
{
    let mut number = Buffer::new();
    write_pieces(to, at.file, b"(", number.format(at.line).as_bytes(), b")")
}

/// Writes the text of a message.
fn write_text<S: Sink>(to: &mut S, wording: Wording<'_>) -> Result<(), ReportFault>
    ensures { Writes (S.taken to.old) (S.taken to.new) (S.failures to.old) (S.failures to.new) (said wording.entry) result }
{
    match wording {
        Wording::Phrase {
            first,
            second,
            third,
            fourth,
        } => write_pieces(to, first, second, third, fourth),
        Wording::Declared(name, location) => {
            write_pieces(to, b"\"", name, b"\"", b" was declared at ")?;
            write_place(to, location)
        }
        Wording::StoryOver(bytes) => {
            let mut number = Buffer::new();
            write_pieces(
                to,
                b"",
                b"Story is over ",
                number.format(bytes).as_bytes(),
                b" bytes",
            )
        }
        Wording::Own(words) => write_shown(to, words),
    }
}

/// Writes the lines of the last error and of the fatal one that follows it.
pub(crate) fn write_last<S: Sink>(
    to: &mut S,
    at: Location<'_>,
    unit: Location<'_>,
    message: &Message<'_>,
) -> Result<(), ReportFault>
    ensures { Writes (S.taken to.old) (S.taken to.new) (S.failures to.old) (S.failures to.new)
        (line_of Error (located at.entry) (meant message.now) ++ line_of Fatal (located unit.entry) TooManyErrors) result }
{
    write_line(to, Kind::Error, at, message)?;
    write_line(to, Kind::Fatal, unit, &Message::TooManyErrors)
}

/// Writes the line of a plain message.
pub(crate) fn write_plain<S: Sink>(to: &mut S, words: OwnWords<'_>) -> Result<(), ReportFault>
    ensures { Writes (S.taken to.old) (S.taken to.new) (S.failures to.old) (S.failures to.new)
        (shown (worded words.entry) ++ codes "\n") result }
{
    write_shown(to, words)?;
    write_bytes(to, b"\n")
}

/// Writes the last line.
pub(crate) fn write_closing<S: Sink>(
    to: &mut S,
    errors: u32,
    warnings: u64,
) -> Result<(), ReportFault>
    ensures { Writes (S.taken to.old) (S.taken to.new) (S.failures to.old) (S.failures to.new) (closing errors warnings) result }
{
    let mut first = Buffer::new();
    let mut second = Buffer::new();
    let told = first.format(errors).as_bytes();
    let warned = second.format(warnings).as_bytes();
    write_pieces(to, b"Errors: ", told, b", warnings: ", warned)?;
    write_bytes(to, ending(errors))
}

fn ending(errors: u32) -> &'static [u8]
    ensures { result.now ≡ ending errors }
{
    if errors == 0 {
        b"\n"
    } else {
        b" (no output)\n"
    }
}
