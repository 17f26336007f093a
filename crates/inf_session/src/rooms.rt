//! Room for the name of the innermost file, by which a failure to read it is told.
ghost use Rattle.std.specs.Prelude.{◌≡◌, [], OnOk, slice_get, string_bytes, unwrap_or};
ghost use Rattle.inf_session.specs.Standing.{HasRoom};

use inf_sources::open_files::OpenFiles;
use std::alloc::{AllocError, Global};
use std::mem;

/// Makes room in `room` for the name of the innermost file, by which a failure to read it is told.
pub(crate) fn make_room(room: &mut String, files: &OpenFiles) -> Result<(), AllocError>
    ensures { OnOk result (HasRoom room.new files.now) }
{
    room.reserve(files.innermost().len())
}

/// Gives `room` away, with the name of the innermost file in it.
#[cold]
#[inline(never)]
pub(crate) fn give_room(alloc: Global, room: &mut String, files: &OpenFiles) -> String
    requires { HasRoom room.old files.now }
    ensures { string_bytes result ≡ unwrap_or (slice_get files.now.nest.names files.now.lexer.file) [] }
{
    let mut name = mem::replace(room, String::new(alloc));
    name.clear();
    let _ = name.push_str(files.innermost());
    name
}
