//! The lines of a source.
ghost use Rattle.std.specs.Prelude.{◌≡◌, ◌+◌, ◌<◌, ◌≤◌, ◌^◌};
ghost use Rattle.inf_scanner.specs.Lines.{past, first_line};

/// The line at hand, and whether the byte before it was a carriage return, behind which a line feed ends no other line.
#[derive(Clone, Copy)]
pub struct Lines {
    pub line: u32,
    pub after_return: bool,
}

impl Lines {
    /// Returns the line at the front of a source.
    pub(crate) fn first() -> Lines
        ensures { result ≡ first_line }
    {
        Lines {
            line: 1,
            after_return: false,
        }
    }

    /// Passes a byte, which may end the line.
    pub(crate) fn pass(&mut self, byte: u8)
        requires { self.old.line + 1 < 2 ^ 32 }
        ensures past { self.new ≡ past byte self.old }
        ensures few { self.new.line ≤ self.old.line + 1 }
    {
        if byte == b'\r' || (byte == b'\n' && !self.after_return) {
            self.line += 1;
        }
        self.after_return = byte == b'\r';
    }
}
