//! The reason why a text that is read by itself has no effect.
ghost use Rattle.std.specs.Prelude.{◌≡◌};

use inf_ending::faults::Fault;
use inf_expressions::Finding;
use inf_report::report::ReportFault;
use std::alloc::AllocError;

/// The reason why a text has no effect. What a message says of it was written.
#[derive(Drop)]
pub enum UnitFault {
    /// A token was bad, or the source has ended.
    Syntax,
    /// Something is wrong with it, of which this is the least.
    Semantic(Finding),
    /// Errors were told.
    Wrong,
    /// A fatal message was told. No further text is read.
    Fatal,
    /// The session has failed. No further call is of use.
    Lost(Fault),
}

impl From<Fault> for UnitFault {
    ghost use Rattle.inf_calls.specs.declared.faults.UnitFault.TheVariants.{Lost};

    ghost from_gives = { λ fault unit. unit ≡ Lost fault };

    fn from(fault: Fault) -> UnitFault {
        UnitFault::Lost(fault)
    }
}

impl From<AllocError> for UnitFault {
    ghost use Rattle.inf_calls.specs.declared.faults.UnitFault.TheVariants.{Lost};
    ghost use Rattle.inf_ending.specs.declared.faults.Fault.TheVariants.{Memory};

    ghost from_gives = { λ _ unit. unit ≡ Lost Memory };

    fn from(_error: AllocError) -> UnitFault {
        UnitFault::Lost(Fault::Memory)
    }
}

impl From<ReportFault> for UnitFault {
    ghost use Rattle.inf_calls.specs.declared.faults.UnitFault.TheVariants.{Lost};
    ghost use Rattle.inf_ending.specs.declared.faults.Fault.TheVariants.{Messages};

    ghost from_gives = { λ _ unit. unit ≡ Lost Messages };

    fn from(_error: ReportFault) -> UnitFault {
        UnitFault::Lost(Fault::Messages)
    }
}
