//! Messages in the source's own words.
ghost use Rattle.std.specs.Prelude.{◌≡◌, ◌≤◌, length};
ghost use Rattle.std.specs.List.{prefix_len};
ghost use Rattle.inf_characters.specs.Characters.{is_white};
ghost use Rattle.inf_report.specs.{Meant.worded, Writing.Writes};
ghost use Rattle.inf_report.specs.OwnWords.{has_line_end, is_alike, shown, shown_run};

use crate::pieces::{ReportFault, write_bytes};
use inf_characters::{CharSet, is_line_end, is_white};
use inf_devices::sinks::Sink;

/// A text of the source: the bytes between the quotes. A message shows them as they are, but white space with a line
/// end in it as one space.
#[derive(Clone, Copy)]
pub struct OwnWords<'a> {
    pub bytes: &'a [u8],
    /// The source's character set, which decides which bytes are white space.
    pub set: CharSet,
}

/// Writes a text as a message shows it, run by run: of white space, and of other bytes.
pub(crate) fn write_shown<S: Sink>(to: &mut S, words: OwnWords<'_>) -> Result<(), ReportFault>
    ensures { Writes (S.taken to.old) (S.taken to.new) (S.failures to.old) (S.failures to.new) (shown (worded words.entry)) result }
{
    let mut rest = words.bytes;
    while let [first, ..] = rest {
        let is_space = is_white(words.set, *first);
        let (run, behind) = rest.split_at(run_len(words.set, is_space, rest));
        write_bytes(to, shown_run(is_space, run))?;
        rest = behind;
    }
    Ok(())
}

/// Returns the bytes that a message shows of a run of white space or of other bytes.
fn shown_run(is_space: bool, run: &[u8]) -> &[u8]
    ensures { result.now ≡ shown_run is_space run.now }
{
    if is_space && has_line_end(run) {
        b" "
    } else {
        run
    }
}

/// Returns the number of bytes at the front that are white space, or, where `is_space` is false, of those that are not.
fn run_len(set: CharSet, is_space: bool, bytes: &[u8]) -> usize
    ensures value { result ≡ prefix_len (is_alike set is_space) bytes.now }
    ensures within { result ≤ length bytes.now }
{
    for (index, byte) in bytes.iter().enumerate() {
        if is_white(set, *byte) != is_space {
            return index;
        }
    }
    bytes.len()
}

fn has_line_end(bytes: &[u8]) -> bool
    ensures { result ≡ has_line_end bytes.now }
{
    bytes.iter().any(|byte| is_line_end(*byte))
}
