//! The reason why no token was read.
ghost use Rattle.std.specs.Prelude.{◌≡◌};
ghost use Rattle.inf_lexer.specs.declared.faults.LexFault.TheVariants.{Memory};

use std::alloc::{AllocError, AllocFailed};
use thiserror::Error;

/// The reason why no token was read.
#[derive(Clone, Copy, Debug, PartialEq, Eq, Drop, Error)]
pub enum LexFault {
    /// The source could not be read, or has more than 16,777,216 bytes.
    #[error("the source could not be read")]
    Read,
    /// No memory was left.
    #[error("no memory was left")]
    Memory,
}

impl From<AllocError> for LexFault {
    ghost from_gives = { λ _ fault. fault ≡ Memory };

    fn from(_error: AllocError) -> LexFault {
        LexFault::Memory
    }
}
