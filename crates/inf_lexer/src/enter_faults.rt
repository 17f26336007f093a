//! The reason why a file was not entered.
ghost use Rattle.std.specs.Prelude.{◌≡◌};

use inf_devices::files::OpenFault;
use std::alloc::AllocError;
use thiserror::Error;

/// The reason why a file was not entered.
#[derive(Clone, Copy, Debug, PartialEq, Eq, Drop, Error)]
pub enum EnterFault {
    /// The name is empty, or has a byte over 127.
    #[error("the name is no file's")]
    BadName,
    /// 16 files are open already.
    #[error("too many files are open")]
    TooDeep,
    /// No file has the name.
    #[error("the file is not there")]
    Absent,
    /// The file could not be opened, or 65,535 others were opened before.
    #[error("the file could not be opened")]
    Device,
    /// No memory was left.
    #[error("no memory was left")]
    Memory,
}

impl From<AllocError> for EnterFault {
    ghost use Rattle.inf_lexer.specs.declared.enter_faults.EnterFault.TheVariants.{Memory};

    ghost from_gives = { λ _ fault. fault ≡ Memory };

    fn from(_error: AllocError) -> EnterFault {
        EnterFault::Memory
    }
}
