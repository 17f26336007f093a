//! Instructions and their operands.
ghost use Rattle.std.specs.Prelude.{◌≡◌, ◌<◌, Some};
ghost use Rattle.inf_opcode.specs.Instructions.{type_code, is_byte, is_variable, bare};
ghost use Rattle.inf_opcode.specs.PartsOf.{parts_of};

use crate::opcodes::Opcode;
use inf_area::Target;

/// The most operands that an instruction has.
pub const MOST_OPERANDS: usize = 8;

/// A place of a routine, by a number that whoever writes the routine chooses. The numbers should be
/// small: closing the routine takes memory for the greatest of those that are marked.
#[derive(Clone, Copy, Debug, PartialEq, Eq)]
pub struct Label {
    pub number: u32,
}

/// Where a branch goes (Z-Machine Standard 1.1, section 4.7.1).
#[derive(Clone, Copy)]
pub enum Destination {
    To(Label),
    ReturnFalse,
    ReturnTrue,
}

/// A branch: whether it is taken where the test holds, and where it goes.
#[derive(Clone, Copy)]
pub struct Branch {
    pub sense: bool,
    pub target: Destination,
}

/// An operand (Z-Machine Standard 1.1, section 4.2).
#[derive(Clone, Copy, PartialEq, Eq)]
pub enum Operand {
    /// A constant of two bytes.
    Large(u16),
    /// A constant of one byte.
    Small(u8),
    /// A variable by its number: 0 is the top of the stack, 1 to 15 are locals, 16 to 255 globals.
    Variable(u8),
    /// A constant of two bytes that is known later, and zero until then.
    Later(Target),
    /// The offset to a label in two bytes, which `jump` takes.
    Offset(Label),
}

impl Default for Operand {
    ghost use Rattle.std.specs.Prelude.{◌≡◌};
    ghost use Rattle.inf_opcode.specs.declared.instructions.Operand.TheVariants.{Small};

    ghost is_default = { λ operand. operand ≡ Small 0 };

    /// Returns the small constant 0.
    fn default() -> Self {
        Operand::Small(0)
    }
}

impl Operand {
    /// Returns the two bits that tell the operand's type.
    pub(crate) fn type_code(self) -> u8
        ensures value { result ≡ type_code self }
        ensures small { result < 3 }
    {
        match self {
            Operand::Large(_) | Operand::Later(_) | Operand::Offset(_) => 0,
            Operand::Small(_) => 1,
            Operand::Variable(_) => 2,
        }
    }

    /// Returns whether the operand takes one byte.
    pub(crate) fn is_byte(self) -> bool
        ensures { result ≡ is_byte self }
    {
        matches!(self, Operand::Small(_) | Operand::Variable(_))
    }

    /// Returns whether the operand is a variable.
    pub(crate) fn is_variable(self) -> bool
        ensures { result ≡ is_variable self }
    {
        matches!(self, Operand::Variable(_))
    }
}

/// An instruction: an opcode, its operands, and the parts behind them.
#[derive(Clone, Copy)]
pub struct Instruction<'a> {
    pub opcode: Opcode,
    /// The operands, eight at most.
    pub operands: &'a [Operand],
    /// The number of the variable that takes the result.
    pub store: Option<u8>,
    /// Where control goes by the outcome of a test.
    pub branch: Option<Branch>,
    /// The bytes of the text that a printing opcode takes: whole words, of which only the last has its top bit set. There are
    /// none where the opcode takes no text.
    pub text: &'a [u8],
}

impl<'a> Instruction<'a> {
    /// Returns an instruction of `opcode` without operands, and with nothing behind it.
    pub fn bare(opcode: Opcode) -> Self
        ensures { parts_of result ≡ bare opcode }
    {
        Instruction {
            opcode,
            operands: &[],
            store: None,
            branch: None,
            text: &[],
        }
    }

    /// Returns an instruction of `opcode` with `operands`, and with a variable for its result if `store` is one.
    pub fn new(opcode: Opcode, operands: &'a [Operand], store: Option<u8>) -> Self
        ensures { parts_of result ≡ record (bare opcode) { operands = operands.now; store = store } }
    {
        Instruction {
            operands,
            store,
            ..Instruction::bare(opcode)
        }
    }

    /// Returns the instruction with `branch`.
    pub fn with_branch(self, branch: Branch) -> Self
        ensures { parts_of result ≡ record (parts_of self.entry) { branch = Some branch } }
    {
        Instruction {
            branch: Some(branch),
            ..self
        }
    }

    /// Returns an instruction of `opcode` without operands, which prints the bytes `text`.
    pub fn with_text(opcode: Opcode, text: &'a [u8]) -> Self
        ensures { parts_of result ≡ record (bare opcode) { text = text.now } }
    {
        Instruction {
            text,
            ..Instruction::bare(opcode)
        }
    }
}
