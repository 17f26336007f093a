//! The code of expressions.
//!
//! An expression is laid with its value in a variable or on the stack, without result, or as a branch. In `specs/`,
//! `Meaning` defines row by row the code of each operator by the meanings of its parts, and `Parts` defines the parts of an
//! instruction: a simple one is an operand itself, the others are worked out into the stack from the last to the first.
//!
//! Trees may be as deep as their text is long. The work left is therefore a list of tasks and not a recursion. `Tasks` of
//! `specs/` defines each of them, and each row of the code puts tasks in front of those that are left.
#![tactic(auto)]

mod laying;
mod parts;
mod placing;
mod reading;
mod rows;
mod tasks;
mod templates;
mod testing;
mod working;

pub use reading::simple_of;
pub use tasks::{Argument, Few, Memory, Task, Tasks, Worked};
pub use templates::{
    lay_alone, lay_branch, lay_call, lay_instruction, lay_routine_call, lay_value,
};
