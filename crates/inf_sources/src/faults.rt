//! The reasons why an inclusion could not be tried.
ghost use Rattle.std.specs.Prelude.{◌≡◌};

use std::alloc::AllocError;
use thiserror::Error;

/// The reason why an inclusion could not be tried.
#[derive(Clone, Copy, Debug, PartialEq, Eq, Drop, Error)]
pub enum IncludeFault {
    /// The file could not be opened, or 65,535 others were opened before.
    #[error("the file could not be opened")]
    Device,
    /// No memory was left.
    #[error("no memory was left")]
    Memory,
}

impl From<AllocError> for IncludeFault {
    ghost use Rattle.inf_sources.specs.declared.faults.IncludeFault.TheVariants.{Memory};

    ghost from_gives = { λ _ fault. fault ≡ Memory };

    fn from(_error: AllocError) -> IncludeFault {
        IncludeFault::Memory
    }
}
