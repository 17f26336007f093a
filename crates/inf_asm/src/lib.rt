//! Instructions, routines and the areas that they are written to.
//!
//! A user of this layer needs no other crate. It shows types and calls of `inf_area`, `inf_opcode` and `inf_assembler`:
//!
//! - `Opcode::by_name`, `Opcode::row`; an `Instruction` has an opcode, `Operand`s, and what stands behind them: a variable for its result,
//!   a `Branch` to a `Destination`, a text.
//! - `Area::{len, byte, push, append, patch_byte, patch_word, move_left, cut}`: a list of bytes; `FlatArea` has it in one piece,
//!   `PagedArea` in pages.
//! - `Refs::{new, add, extend, keep, len}`: the places of two bytes each into which the number of a `Target` is put at the end;
//!   `AddFault` says why one was not added.
//! - `Routine::open` begins a routine; `Routine::{emit, label}` write to it; `Routine::{mark, back}` go back; `Routine::close` answers
//!   where
//!   it stands, or a `CloseFault`. `Limits` say what it may hold, `Limit` which of them would be passed.
#![tactic(auto)]

pub use inf_area::{
    AddFault, Area, AreaName, Fixup, FlatArea, PagedArea, Refs, SystemConstant, Target, Value,
};
pub use inf_assembler::{CloseFault, Closed, GrowFault, Limit, Limits, Mark, Routine, RoutineKind};
pub use inf_opcode::{
    Branch, Destination, Instruction, Label, MOST_OPERANDS, Opcode, OpcodeRow, Operand,
    OperandCount,
};
