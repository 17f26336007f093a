//! Operands that need no code.
ghost use Rattle.std.specs.Prelude.{◌≡◌, ◌+◌, ◌++◌, ◌≤◌, length, map};
ghost use Rattle.inf_output.specs.Operands.{written};

use arrayvec::ArrayVec;
use inf_area::Target;
use inf_opcode::{MOST_OPERANDS, Operand};

/// A constant or a variable.
#[derive(Clone, Copy, Debug, PartialEq, Eq)]
pub enum Simple {
    Known(u16),
    /// A variable by its number (Z-Machine Standard 1.1, section 4.2.2).
    Variable(u8),
    /// A constant that is known when the story is laid out.
    Later(Target),
}

impl Default for Simple {
    ghost use Rattle.std.specs.Prelude.{◌≡◌};
    ghost use Rattle.inf_output.specs.declared.operands.Simple.TheVariants.{Known};

    ghost is_default = { λ simple. simple ≡ Known 0 };

    /// Returns the number 0.
    fn default() -> Self {
        Simple::Known(0)
    }
}

impl Simple {
    /// Returns the operand of an instruction: a known number of one byte is a small constant, every other constant a large one.
    pub fn written(self) -> Operand
        ensures { result ≡ written self }
    {
        match self {
            Simple::Known(number) if number < 256 => Operand::Small(number as u8),
            Simple::Known(number) => Operand::Large(number),
            Simple::Variable(variable) => Operand::Variable(variable),
            Simple::Later(target) => Operand::Later(target),
        }
    }
}

/// Appends `operands` to `all`, as operands of an instruction.
pub(crate) fn add_written(all: &mut ArrayVec<Operand, MOST_OPERANDS>, operands: &[Simple])
    requires { length all.old.items + length operands.now ≤ 8 }
    ensures { all.new.items ≡ all.old.items ++ map written operands.now }
{
    for operand in operands {
        all.push(operand.written());
    }
}
