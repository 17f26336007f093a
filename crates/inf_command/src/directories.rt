//! The directories of a path.
ghost use Rattle.std.specs.Prelude.{◌≡◌, IfOk, map};
ghost use Rattle.inf_command.specs.Directories.{cut_at_commas};

use std::alloc::{AllocError, Global};

/// Returns the parts of `path` between its commas: one part where it is empty.
///
/// The only error is that no memory was left.
pub(crate) fn parts_of<'a>(alloc: Global, path: &'a str) -> Result<Vec<&'a str>, AllocError>
    ensures { IfOk result (λ parts. map (λ part. part.now) parts.items ≡ cut_at_commas path.now) }
{
    path.split(',').collect(alloc)
}
