//! The reason why a device of the system failed, in words.
use inf_disk::disk::Trouble;
use std::fmt::{self, Display, Formatter};
use std::io::{self, ErrorKind};

/// A reason of the system: its kind, and its number where it has one.
#[derive(Clone, Copy)]
pub struct Reason {
    kind: ErrorKind,
    number: Option<i32>,
}

impl Reason {
    /// Returns the reason of an error.
    pub fn of(error: &io::Error) -> Reason {
        Reason {
            kind: error.kind(),
            number: error.raw_os_error(),
        }
    }

    /// Returns a reason of this kind, without a number.
    pub fn of_kind(kind: ErrorKind) -> Reason {
        Reason { kind, number: None }
    }

    /// Returns the reason of a device's last failure: the limit on the size of its file where it `is_full`, or else that of its `trouble`.
    pub fn of_trouble(is_full: bool, trouble: &Trouble) -> Reason {
        if is_full {
            return Reason::of_kind(ErrorKind::FileTooLarge);
        }
        Reason {
            kind: trouble.reason.unwrap_or(ErrorKind::Other),
            number: trouble.number,
        }
    }

    /// Returns whether a file was to be made that is there already.
    pub fn is_there_already(self) -> bool {
        matches!(self.kind, ErrorKind::AlreadyExists)
    }
}

impl Display for Reason {
    /// Writes the name of the kind. The reasons that have none, as that of an output that is closed, have the system's own words.
    fn fmt<W: fmt::Write>(&self, f: &mut Formatter<W>) -> fmt::Result {
        match (self.kind, self.number) {
            (ErrorKind::Uncategorized, Some(number)) => {
                Display::fmt(&io::Error::from_raw_os_error(number), f)
            }
            (kind, _) => Display::fmt(&kind, f),
        }
    }
}
