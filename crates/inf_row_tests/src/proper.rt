//! Whether the instruction set has an instruction.
ghost use Rattle.std.specs.Prelude.{◌≡◌, true};
ghost use Rattle.inf_opcode.specs.{Instructions.IsProper, Instructions.fits_variable, Instructions.has_no_offset, PartsOf.parts_of};

use inf_opcode::{Instruction, Operand};

/// Returns whether no operand is an offset.
fn has_no_offset(operands: &[Operand]) -> bool
    ensures { result ≡ has_no_offset operands.now }
{
    for operand in operands {
        if matches!(operand, Operand::Offset(_)) {
            return false;
        }
    }
    true
}

/// Returns whether the first operand is a small constant, where it names a variable.
fn fits_variable(names_variable: bool, operands: &[Operand]) -> bool
    ensures { result ≡ fits_variable names_variable operands.now }
{
    match (names_variable, operands) {
        (false, _) => true,
        (true, [Operand::Small(_), ..]) => true,
        _ => false,
    }
}

/// Returns whether the instruction set has an instruction, which neither jumps nor has a text.
pub(crate) fn is_proper(instruction: &Instruction<'_>) -> bool
    ensures { result ≡ true → IsProper (parts_of instruction.now) }
{
    let row = instruction.opcode.row();
    let count = instruction.operands.len();
    usize::from(row.least) <= count
        && count <= usize::from(row.most)
        && fits_variable(row.names_variable, instruction.operands)
        && !row.jumps
        && has_no_offset(instruction.operands)
        && instruction.store.is_some() == row.stores
        && instruction.branch.is_some() == row.branches
        && !row.has_text
        && instruction.text.is_empty()
}
