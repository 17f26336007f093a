//! The head of a main source.
ghost use Rattle.std.specs.Prelude.{◌≡◌, ◌-◌, ◌<◌, false, length, is_err};
ghost use Rattle.inf_lexer.specs.Unread.{unread};
ghost use Rattle.inf_sources.specs.{Calls.Honestly, Open.nesting};
ghost use Rattle.inf_compile.specs.HeadsRead.{HeadIsRead, LeavesHead};

use arrayvec::ArrayVec;
use inf_command::head::Head;
use inf_devices::files::Files;
use inf_lexer::{HeadPlace, LexFault};
use inf_sources::open_files::OpenFiles;

/// Reads the head of the innermost file of `open_files`, of which nothing was read yet, and returns what its words say. The file goes on
/// behind the head.
///
/// The error `Read` comes where the file could not be read, or has more than 16,777,216 bytes; there is no other.
pub fn read_head<F: Files>(open_files: &mut OpenFiles, files: &mut F) -> Result<Head, LexFault>
    requires is_open { length open_files.old.outer < F.depth files.old }
    requires goes { open_files.old.lexer.has_failed ≡ false }
    ensures read { Honestly F.Files files.old open_files.old (λ start.
        HeadIsRead (nesting (F.sources files.old) start (F.openings files.old) open_files.old)
        (nesting (F.sources files.old) start (F.openings files.new) open_files.new)
        (open_files.new.lexer.window.given - 16777216) (unread (F.sources files.old) (F.openings files.new)) result) }
    ensures leaves { LeavesHead F.Files files.old files.new open_files.old open_files.new result }
    ensures failed { open_files.new.lexer.has_failed ≡ is_err result }
{
    let mut head = Head::none();
    let mut place = HeadPlace::Line;
    let mut word = ArrayVec::new();
    while open_files.next_head_word(files, &mut place, &mut word)? {
        head.take(word.as_slice());
    }
    Ok(head)
}
