//! The operands of the leaves of a unit: numbers, variables, names that are known at the end, words, texts and actions.
#![tactic(auto)]

pub mod looking;
pub mod naming;
pub mod operand_lists;
pub mod operands;
