//! The instruction set of the Z-machine, and instructions as the cells that they are written as.
//!
//! `Opcode` is the table of the Z-Machine Standard 1.1, section 14, and `Instruction` an opcode with its operands and the parts
//! behind them. While a routine is open, an instruction's bytes stand in an area: a branch takes two of them, and offsets and
//! numbers that are known later are zero. Each part that is no plain byte is kept beside them, with its place.
//!
//! In `specs/`, `Opcodes` has the table, `Names` the names of the opcodes, `Slots` the table by which the opcode of a name is
//! found, `Instructions` the formats of the Z-Machine Standard 1.1, sections 4 and 5, `Cells` the parts that are written and kept,
//! and `Grown` the growth by one call.
#![tactic(auto)]

mod cells;
mod instructions;
mod names;
mod opcodes;
mod places;
mod writing;

pub use cells::{Kept, Special};
pub use instructions::{Branch, Destination, Instruction, Label, MOST_OPERANDS, Operand};
pub use opcodes::{Opcode, OpcodeRow, OperandCount};
pub use writing::{Counts, append_instruction, instruction_counts, sense_bit};
