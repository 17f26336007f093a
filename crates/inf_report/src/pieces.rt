//! Writing bytes to a sink piece by piece.
ghost use Rattle.std.specs.Prelude.{◌++◌};
ghost use Rattle.inf_report.specs.Writing.{Writes};

use inf_devices::sinks::{Sink, write_whole};
use thiserror::Error;

/// The reason why a line was not written.
#[derive(Clone, Copy, Debug, PartialEq, Eq, Error)]
pub enum ReportFault {
    /// The sink failed. A part of the line may be out.
    #[error("a message was not written")]
    Write,
}

/// Writes all of `bytes`.
pub(crate) fn write_bytes<S: Sink>(to: &mut S, bytes: &[u8]) -> Result<(), ReportFault>
    ensures { Writes (S.taken to.old) (S.taken to.new) (S.failures to.old) (S.failures to.new) bytes.now result }
{
    match write_whole(to, bytes) {
        Ok(()) => Ok(()),
        Err(_count) => Err(ReportFault::Write),
    }
}

/// Writes two pieces, one behind the other.
fn write_two<S: Sink>(to: &mut S, first: &[u8], second: &[u8]) -> Result<(), ReportFault>
    ensures { Writes (S.taken to.old) (S.taken to.new) (S.failures to.old) (S.failures to.new) (first.now ++ second.now) result }
{
    write_bytes(to, first)?;
    write_bytes(to, second)
}

/// Writes four pieces, one behind the other.
pub(crate) fn write_pieces<S: Sink>(
    to: &mut S,
    first: &[u8],
    second: &[u8],
    third: &[u8],
    fourth: &[u8],
) -> Result<(), ReportFault>
    ensures { Writes (S.taken to.old) (S.taken to.new) (S.failures to.old) (S.failures to.new)
        (first.now ++ second.now ++ third.now ++ fourth.now) result }
{
    write_two(to, first, second)?;
    write_two(to, third, fourth)
}
