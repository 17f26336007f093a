//! Items of routines, as they are written.
ghost use Rattle.inf_opcode.specs.{Instructions.IsProper, PartsOf.parts_of};
ghost use Rattle.inf_assembler.specs.Routines.{IsOpen, Were, contents_of, moment_of};

use crate::proper::is_proper;
use inf_area::{Area, Refs};
use inf_assembler::{GrowFault, Routine};
use inf_opcode::{Branch, Instruction, Label, Opcode, Operand};

/// An item of a routine.
#[derive(Drop)]
pub(crate) enum Item {
    /// The mark of a label.
    Label(u32),
    /// `jump` to a label.
    Jump(u32),
    /// `print_ret` of a text.
    Text,
    /// An instruction of any other kind.
    Other(Parsed),
    /// No item of a routine, but the question for the bytes of the area.
    Bytes,
}

/// An instruction with neither label nor text.
#[derive(Drop)]
pub(crate) struct Parsed {
    pub(crate) opcode: Opcode,
    pub(crate) operands: Vec<Operand>,
    pub(crate) store: Option<u8>,
    pub(crate) branch: Option<Branch>,
}

/// The reason why an item was not written.
#[derive(Clone, Copy, Debug)]
pub(crate) enum Fault {
    /// The instruction set has no such instruction.
    Improper,
    /// The routine refused it.
    Refused(GrowFault),
}

/// The bytes of the text `hello`.
const HELLO: [u8; 4] = [0x35, 0x51, 0xC6, 0x85];

/// Writes an instruction.
fn emit<A: Area>(
    routine: &mut Routine,
    area: &mut A,
    refs: &Refs,
    instruction: &Instruction<'_>,
) -> Result<(), Fault>
    requires open_still { IsOpen routine.old (A.bytes area.old) }
    requires proper { IsProper (parts_of instruction.now) }
    ensures open_still { IsOpen routine.new (A.bytes area.new) }
    ensures behind { let before = contents_of routine.old (A.bytes area.old) in
        Were before (moment_of before) (contents_of routine.new (A.bytes area.new)) }
{
    match routine.emit(area, refs, instruction) {
        Ok(()) => Ok(()),
        Err(fault) => Err(Fault::Refused(fault)),
    }
}

/// Writes an instruction that the instruction set has.
fn emit_parsed<A: Area>(
    routine: &mut Routine,
    area: &mut A,
    refs: &Refs,
    parsed: &Parsed,
) -> Result<(), Fault>
    requires { IsOpen routine.old (A.bytes area.old) }
    ensures open_still { IsOpen routine.new (A.bytes area.new) }
    ensures behind { let before = contents_of routine.old (A.bytes area.old) in
        Were before (moment_of before) (contents_of routine.new (A.bytes area.new)) }
{
    let instruction = Instruction {
        opcode: parsed.opcode,
        operands: parsed.operands.as_slice(),
        store: parsed.store,
        branch: parsed.branch,
        text: &[],
    };
    if !is_proper(&instruction) {
        return Err(Fault::Improper);
    }
    emit(routine, area, refs, &instruction)
}

/// Writes an item.
pub(crate) fn write<A: Area>(
    routine: &mut Routine,
    area: &mut A,
    refs: &Refs,
    item: &Item,
) -> Result<(), Fault>
    requires { IsOpen routine.old (A.bytes area.old) }
    ensures open_still { IsOpen routine.new (A.bytes area.new) }
    ensures behind { let before = contents_of routine.old (A.bytes area.old) in
        Were before (moment_of before) (contents_of routine.new (A.bytes area.new)) }
{
    match item {
        Item::Label(number) => match routine.label(area, Label { number: *number }) {
            Ok(()) => Ok(()),
            Err(fault) => Err(Fault::Refused(fault)),
        },
        Item::Jump(number) => {
            let operands = [Operand::Offset(Label { number: *number })];
            let jump = Instruction::new(Opcode::Jump, &operands, None);
            emit(routine, area, refs, &jump)
        }
        Item::Text => {
            let text = Instruction::with_text(Opcode::PrintRet, &HELLO);
            emit(routine, area, refs, &text)
        }
        Item::Other(parsed) => emit_parsed(routine, area, refs, parsed),
        Item::Bytes => Ok(()),
    }
}
