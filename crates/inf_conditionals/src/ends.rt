//! The messages about conditionals that have no other end.
ghost use Rattle.std.specs.Prelude.{◌≡◌, OnOk};
ghost use Rattle.inf_conditionals.specs.Ends.{with_all_lone, with_lone};

use inf_lexer::Stack;
use inf_report::messages::Message;
use inf_scanner::Place;
use inf_sources::open_file::Conditional;
use inf_unit::messages::{Diagnostics, location};
use std::alloc::AllocError;

/// Reports each of `unclosed`, the conditionals that have no other end.
pub(crate) fn tell_all(
    unclosed: &[Conditional],
    files: &Stack,
    report: &mut Diagnostics,
) -> Result<(), AllocError>
    ensures { OnOk result (report.new ≡ with_all_lone files.now.names unclosed.now report.old) }
{
    for conditional in unclosed {
        tell_lone(conditional.place, files, report)?;
    }
    Ok(())
}

/// Reports a conditional directive without its other end, where it begins.
pub fn tell_lone(place: Place, files: &Stack, report: &mut Diagnostics) -> Result<(), AllocError>
    ensures { OnOk result (report.new ≡ with_lone files.now.names place report.old) }
{
    let at = location(files, place);
    report.error(at, at, &Message::LoneConditional)
}
