//! The reason why a compilation was given up.
ghost use Rattle.std.specs.Prelude.{◌≡◌};
ghost use Rattle.inf_ending.specs.Faults.{fault_of};

use inf_report::report::ReportFault;
use std::alloc::AllocError;
use thiserror::Error;

/// The reason why a compilation was given up.
#[derive(Debug, Drop, Error)]
pub enum Fault {
    /// No memory was left.
    #[error("no memory was left")]
    Memory,
    /// The source of this name could not be opened or read, or has too many bytes.
    #[error("{0} could not be read")]
    Read(String),
    /// The messages could not be written.
    #[error("the messages could not be written")]
    Messages,
    /// The story could not be written, but for this number of its bytes.
    #[error("the story could not be written")]
    Story(usize),
}

impl From<AllocError> for Fault {
    ghost use Rattle.inf_ending.specs.declared.faults.Fault.TheVariants.{Memory};

    ghost from_gives = { λ _ fault. fault ≡ Memory };

    fn from(_error: AllocError) -> Fault {
        Fault::Memory
    }
}

impl From<ReportFault> for Fault {
    ghost use Rattle.inf_ending.specs.declared.faults.Fault.TheVariants.{Messages};

    ghost from_gives = { λ _ fault. fault ≡ Messages };

    fn from(_error: ReportFault) -> Fault {
        Fault::Messages
    }
}

/// The reason why a turn of the reading was given up. Each turn answers this in place of a `Fault`, which is many times as large.
#[derive(Clone, Copy)]
pub enum Halt {
    /// No memory was left.
    Memory,
    /// A source could not be read. The fault with its name was put aside.
    Read,
    /// The messages could not be written.
    Messages,
}

impl From<AllocError> for Halt {
    ghost use Rattle.inf_ending.specs.declared.faults.Halt.TheVariants.{Memory};

    ghost from_gives = { λ _ halt. halt ≡ Memory };

    fn from(_error: AllocError) -> Halt {
        Halt::Memory
    }
}

impl From<ReportFault> for Halt {
    ghost use Rattle.inf_ending.specs.declared.faults.Halt.TheVariants.{Messages};

    ghost from_gives = { λ _ halt. halt ≡ Messages };

    fn from(_error: ReportFault) -> Halt {
        Halt::Messages
    }
}

/// Returns the fault that is told for `halt`. That of a source that could not be read was put aside in `lost`.
#[cold]
#[inline(never)]
pub fn fault_of(halt: Halt, lost: Option<Fault>) -> Fault
    ensures { result ≡ fault_of halt lost }
{
    match halt {
        Halt::Memory => Fault::Memory,
        Halt::Read => lost.unwrap_or(Fault::Memory),
        Halt::Messages => Fault::Messages,
    }
}

/// Puts the fault that the source with the name `name` could not be read aside in `lost`, and returns why the turn is given up.
#[cold]
#[inline(never)]
pub fn lose(name: String, lost: &mut Option<Fault>) -> Halt
    ensures { fault_of result lost.new ≡ Fault.Read name }
{
    *lost = Some(Fault::Read(name));
    Halt::Read
}
