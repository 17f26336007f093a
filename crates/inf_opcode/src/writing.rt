//! Instructions, written to an area (Z-Machine Standard 1.1, section 4).
ghost use Rattle.std.specs.Prelude.{◌≡◌, ◌+◌, ◌*◌, ◌<◌, ◌≤◌, ◌^◌, ◌++◌, List, IsTrue, OnOk, OnErr, length, flat_map};
ghost use Rattle.inf_opcode.specs.{Counts.counts_of, Grown.Grew, Grown.Longer, Opcodes.is_encodable, PartsOf.parts_of};
ghost use Rattle.inf_opcode.specs.{declared.cells.Kept.Kept, declared.instructions.Operand.Operand};
ghost use Rattle.inf_opcode.specs.Cells.{sense_bit, long_bytes, label_count, fixup_count, kept_from};
ghost use Rattle.inf_opcode.specs.Instructions.{type_slot, types_byte, types_bytes, variable_bit, is_long, heading, operand_cells};
ghost use Rattle.inf_opcode.specs.Instructions.{store_cells, branch_cells, front_cells, instruction_cells};

use crate::cells::{Kept, Special};
use crate::instructions::{Branch, Instruction, Operand};
use crate::opcodes::{OpcodeRow, OperandCount};
use arrayvec::ArrayVec;
use inf_area::{Area, word_bytes};
use std::alloc::AllocError;

// Most bytes of an instruction without its text: four of a heading, eight operands, a store variable and a branch.
const FRONT_MAX: usize = 24;

// Returns the type bits of the operand at `k`, or 3 where there is none.
fn type_at(operands: &[Operand], k: usize) -> u8
    ensures value { result ≡ type_slot operands.now k }
    ensures small { result < 4 }
{
    match operands.get(k) {
        Some(operand) => operand.type_code(),
        None => 3,
    }
}

// Returns the byte with the types of the four operands from `k` on.
fn types_of_four(operands: &[Operand], k: usize) -> u8
    requires { k ≤ 4 }
    ensures { result ≡ types_byte operands.now k }
{
    64 * type_at(operands, k)
        + 16 * type_at(operands, k + 1)
        + 4 * type_at(operands, k + 2)
        + type_at(operands, k + 3)
}

// Returns whether the long form can express `operands`.
fn is_long(operands: &[Operand]) -> bool
    ensures { result ≡ is_long operands.now }
{
    match operands {
        [first, second] => first.is_byte() && second.is_byte(),
        _ => false,
    }
}

// Returns the bit of the long form for the operand at `k`.
fn bit_at(operands: &[Operand], k: usize) -> u8
    ensures value { result ≡ variable_bit operands.now k }
    ensures small { result < 2 }
{
    match operands.get(k) {
        Some(operand) if operand.is_variable() => 1,
        _ => 0,
    }
}

// Appends the types of all `operands`, of which there are at most `most`.
fn push_types(heading: &mut ArrayVec<u8, FRONT_MAX>, operands: &[Operand], most: u8)
    requires { length heading.old.items ≤ 2 }
    ensures { heading.new.items ≡ heading.old.items ++ types_bytes most operands.now }
{
    heading.push(types_of_four(operands, 0));
    if most > 4 {
        heading.push(types_of_four(operands, 4));
    }
}

// Returns the bytes of the opcode and of the types of its operands (sections 4.3 and 4.4).
fn heading(row: OpcodeRow, operands: &[Operand]) -> ArrayVec<u8, FRONT_MAX>
    requires { IsTrue (is_encodable row) }
    ensures value { result.items ≡ heading row operands.now }
    ensures few { length result.items ≤ 4 }
{
    let mut heading = ArrayVec::new();
    match row.count {
        // The short form, with an operand's type or with none.
        OperandCount::Zero => heading.push(0xB0 + row.number),
        OperandCount::One => heading.push(0x80 + 16 * type_at(operands, 0) + row.number),
        // The long form has one bit for each type, the variable form a byte for up to four.
        OperandCount::Two if is_long(operands) => {
            heading.push(64 * bit_at(operands, 0) + 32 * bit_at(operands, 1) + row.number);
        }
        OperandCount::Two => {
            heading.push(0xC0 + row.number);
            push_types(&mut heading, operands, row.most);
        }
        OperandCount::Several => {
            heading.push(0xE0 + row.number);
            push_types(&mut heading, operands, row.most);
        }
        // The extended form, whose number has a byte of its own.
        OperandCount::Extended => {
            heading.push(0xBE);
            heading.push(row.number);
            push_types(&mut heading, operands, row.most);
        }
    }
    heading
}

// Returns the number of bytes that the types of at most `most` operands take.
fn types_len(most: u8) -> usize
    ensures value { (operands : List Operand) → result ≡ length (types_bytes most operands) }
    ensures few { result ≤ 2 }
{
    if most > 4 { 2 } else { 1 }
}

// Returns the length of the heading of an opcode with `row` and `operands`.
fn heading_len(row: OpcodeRow, operands: &[Operand]) -> usize
    ensures value { result ≡ length (heading row operands.now) }
    ensures few { result ≤ 4 }
{
    match row.count {
        OperandCount::Zero | OperandCount::One => 1,
        OperandCount::Two if is_long(operands) => 1,
        OperandCount::Two | OperandCount::Several => 1 + types_len(row.most),
        OperandCount::Extended => 2 + types_len(row.most),
    }
}

// Appends `operand`, with zeros in place of a number that is known later.
fn push_operand(bytes: &mut ArrayVec<u8, FRONT_MAX>, operand: Operand)
    requires { length bytes.old.items ≤ 22 }
    ensures value { bytes.new.items ≡ bytes.old.items ++ long_bytes (operand_cells operand) }
    ensures few { length bytes.new.items ≤ length bytes.old.items + 2 }
{
    match operand {
        Operand::Large(number) => {
            let [high, low] = word_bytes(number);
            bytes.push(high);
            bytes.push(low);
        }
        Operand::Small(byte) | Operand::Variable(byte) => bytes.push(byte),
        Operand::Later(_) | Operand::Offset(_) => {
            bytes.push(0);
            bytes.push(0);
        }
    }
}

// Appends the store variable `store` and the branch `branch`, where there are any.
fn push_end(bytes: &mut ArrayVec<u8, FRONT_MAX>, store: Option<u8>, branch: Option<Branch>)
    requires { length bytes.old.items ≤ 20 }
    ensures { bytes.new.items ≡ bytes.old.items ++ long_bytes (store_cells store) ++ long_bytes (branch_cells branch) }
{
    if let Some(number) = store {
        bytes.push(number);
    }
    if let Some(branch) = branch {
        bytes.push(sense_bit(branch.sense));
        bytes.push(0);
    }
}

// Returns the bytes of `instruction` without its text, while the routine is open.
fn front_bytes(instruction: &Instruction<'_>) -> ArrayVec<u8, FRONT_MAX>
    requires few { length (parts_of instruction.now).operands ≤ 8 }
    ensures { result.items ≡ long_bytes (front_cells (parts_of instruction.now)) }
{
    let operands = instruction.operands;
    let mut bytes = heading(instruction.opcode.row(), operands);
    for operand in operands {
        push_operand(&mut bytes, *operand);
    }
    push_end(&mut bytes, instruction.store, instruction.branch);
    bytes
}

// Returns the number of bytes of `operand`.
fn operand_len(operand: Operand) -> usize
    ensures value { result ≡ length (long_bytes (operand_cells operand)) }
    ensures small { result ≤ 2 }
{
    match operand {
        Operand::Small(_) | Operand::Variable(_) => 1,
        Operand::Large(_) | Operand::Later(_) | Operand::Offset(_) => 2,
    }
}

// Keeps `operand`, which stands at `place`, if it is known later.
fn keep_operand(kept: &mut Vec<Kept>, place: usize, operand: Operand) -> Result<(), AllocError>
    ensures ok { OnOk result (kept.new.items ≡ kept.old.items ++ kept_from place (operand_cells operand)) }
    ensures err { OnErr result (kept.new.items ≡ kept.old.items) }
{
    let what = match operand {
        Operand::Later(target) => Special::Refers(target),
        Operand::Offset(label) => Special::Jumps(label),
        Operand::Large(_) | Operand::Small(_) | Operand::Variable(_) => return Ok(()),
    };
    kept.push(Kept { place, what })?;
    Ok(())
}

// Keeps those of `operands` that are known later; the first operand stands at `first`.
fn keep_operands(kept: &mut Vec<Kept>, first: usize, operands: &[Operand]) -> Result<(), AllocError>
    requires { first + length (long_bytes (flat_map operand_cells operands.now)) < 2 ^ 64 }
    ensures ok { OnOk result (kept.new.items ≡ kept.old.items ++ kept_from first (flat_map operand_cells operands.now)) }
    ensures longer { (added : List Kept) × (kept.new.items ≡ kept.old.items ++ added) }
{
    let mut place = first;
    for operand in operands {
        keep_operand(kept, place, *operand)?;
        place += operand_len(*operand);
    }
    Ok(())
}

// Keeps the parts of `instruction` that are no plain bytes; its bytes stand from `start` up to `end`.
fn keep_front(
    kept: &mut Vec<Kept>,
    start: usize,
    end: usize,
    instruction: &Instruction<'_>,
) -> Result<(), AllocError>
    requires { end ≡ start + length (long_bytes (front_cells (parts_of instruction.now))) }
    ensures ok { OnOk result (kept.new.items ≡ kept.old.items ++ kept_from start (front_cells (parts_of instruction.now))) }
    ensures longer { (added : List Kept) × (kept.new.items ≡ kept.old.items ++ added) }
{
    let operands = instruction.operands;
    let first = start + heading_len(instruction.opcode.row(), operands);
    keep_operands(kept, first, operands)?;
    if let Some(branch) = instruction.branch {
        kept.push(Kept {
            place: end - 2,
            what: Special::Branches(branch),
        })?;
    }
    Ok(())
}

// Appends the bytes of `text`, which most instructions do not have.
fn append_text<A: Area>(area: &mut A, text: &[u8]) -> Result<(), AllocError>
    ensures ok { OnOk result (A.bytes area.new ≡ A.bytes area.old ++ text.now) }
    ensures err { OnErr result (A.bytes area.new ≡ A.bytes area.old) }
{
    if text.is_empty() {
        return Ok(());
    }
    area.append(text)
}

// Appends `instruction` to `area`, and its special parts to `kept`. Where memory runs out both may have become longer.
fn write_instruction<A: Area>(
    area: &mut A,
    kept: &mut Vec<Kept>,
    instruction: &Instruction<'_>,
) -> Result<(), AllocError>
    requires few { length (parts_of instruction.now).operands ≤ 8 }
    ensures ok { let cells = instruction_cells (parts_of instruction.now) in
        OnOk result (Grew (A.bytes area.old) kept.old.items cells (A.bytes area.new) kept.new.items) }
    ensures err { OnErr result (Longer (A.bytes area.old) kept.old.items (A.bytes area.new) kept.new.items) }
{
    let start = area.len();
    area.append(front_bytes(instruction).as_slice())?;
    let end = area.len();
    keep_front(kept, start, end, instruction)?;
    append_text(area, instruction.text)?;
    Ok(())
}

/// Appends the bytes of `instruction` to `area`, and its parts that are no plain bytes to `kept`, each with its place. Where memory
/// runs out both stay as they were.
pub fn append_instruction<A: Area>(
    area: &mut A,
    kept: &mut Vec<Kept>,
    instruction: &Instruction<'_>,
) -> Result<(), AllocError>
    requires few { length (parts_of instruction.now).operands ≤ 8 }
    ensures ok { let cells = instruction_cells (parts_of instruction.now) in
        OnOk result (Grew (A.bytes area.old) kept.old.items cells (A.bytes area.new) kept.new.items) }
    ensures err { OnErr result ((A.bytes area.new ≡ A.bytes area.old) × (kept.new.items ≡ kept.old.items)) }
{
    let len = area.len();
    let before = kept.len();
    if let Err(fault) = write_instruction(area, kept, instruction) {
        let end = area.len();
        area.cut(len, end - len);
        kept.truncate(before);
        return Err(fault);
    }
    Ok(())
}

/// Returns the bit of a branch that says whether it is taken where its test holds (Z-Machine Standard 1.1, section 4.7).
pub fn sense_bit(sense: bool) -> u8
    ensures { result ≡ sense_bit sense }
{
    if sense { 0x80 } else { 0 }
}

/// Counts of the bytes, labels and references that a part of a routine takes.
#[derive(Clone, Copy)]
pub struct Counts {
    /// Number of bytes.
    pub bytes: usize,
    /// Number of label marks, branches and jumps.
    pub labels: usize,
    /// Number of references.
    pub fixups: usize,
}

// Returns the counts of `operand`.
fn operand_counts(operand: Operand) -> Counts
    ensures value { result ≡ counts_of (operand_cells operand) }
    ensures bytes { result.bytes ≤ 2 }
    ensures labels { result.labels ≤ 1 }
    ensures fixups { result.fixups ≤ 1 }
{
    let (bytes, labels, fixups) = match operand {
        Operand::Large(_) => (2, 0, 0),
        Operand::Small(_) | Operand::Variable(_) => (1, 0, 0),
        Operand::Later(_) => (2, 0, 1),
        Operand::Offset(_) => (2, 1, 0),
    };
    Counts {
        bytes,
        labels,
        fixups,
    }
}

// Returns the counts of `operands`, of which there are at most eight.
fn operands_counts(operands: &[Operand]) -> Counts
    requires { length operands.now ≤ 8 }
    ensures value { result ≡ counts_of (flat_map operand_cells operands.now) }
    ensures bytes { result.bytes ≤ 16 }
    ensures labels { result.labels ≤ 8 }
    ensures fixups { result.fixups ≤ 8 }
{
    let mut bytes = 0;
    let mut labels = 0;
    let mut fixups = 0;
    for operand in operands {
        let one = operand_counts(*operand);
        bytes += one.bytes;
        labels += one.labels;
        fixups += one.fixups;
    }
    Counts {
        bytes,
        labels,
        fixups,
    }
}

// Returns the number of bytes of a store variable: 1, or 0 where there is none.
fn store_len(store: Option<u8>) -> usize
    ensures bytes { result ≡ length (long_bytes (store_cells store)) }
    ensures labels { label_count (store_cells store) ≡ 0 }
    ensures fixups { fixup_count (store_cells store) ≡ 0 }
    ensures small { result ≤ 1 }
{
    match store {
        Some(_) => 1,
        None => 0,
    }
}

// Returns the number of branches: 1 or 0.
fn branch_count(branch: Option<Branch>) -> usize
    ensures bytes { 2 * result ≡ length (long_bytes (branch_cells branch)) }
    ensures labels { result ≡ label_count (branch_cells branch) }
    ensures fixups { fixup_count (branch_cells branch) ≡ 0 }
    ensures small { result ≤ 1 }
{
    match branch {
        Some(_) => 1,
        None => 0,
    }
}

/// Returns the counts of `instruction` without its text, with its branch in two bytes.
pub fn instruction_counts(instruction: &Instruction<'_>) -> Counts
    requires few { length (parts_of instruction.now).operands ≤ 8 }
    ensures value { result ≡ counts_of (front_cells (parts_of instruction.now)) }
    ensures labels { result.labels ≤ 9 }
    ensures fixups { result.fixups ≤ 9 }
{
    let operands = instruction.operands;
    let head = heading_len(instruction.opcode.row(), operands);
    let given = operands_counts(operands);
    let store = store_len(instruction.store);
    let branch = branch_count(instruction.branch);
    Counts {
        bytes: head + given.bytes + store + 2 * branch,
        labels: given.labels + branch,
        fixups: given.fixups,
    }
}
