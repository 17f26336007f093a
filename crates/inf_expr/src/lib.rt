//! Expressions: what is gathered of them, their trees, and the code that computes a tree.
//!
//! A user of this layer needs no other crate, but for the session of a `Cx`. It shows types and calls of `inf_gathering`, `inf_unit`,
//! `inf_expressions`, `inf_templates` and `inf_calls`:
//!
//! - `Gathering` takes the leaves and operators of a unit's expressions as they are read, `Unit` the tokens of a unit beside them.
//! - `judge` answers the least `Finding` of a unit, by its `Symbol`s and what its leaves stand for (`Leaf` is an operand of `Operand`);
//!   what
//!   is wanted of each expression is told by `Wanted`. `build` makes the trees, a `Forest` of `Nodes` with a `Root` each; `constant`,
//!   `operand` and `range` ask what a tree is.
//! - `lay_alone`, `lay_value`, `lay_branch`, `lay_call`, `lay_routine_call` and `lay_instruction` write the code of trees, with what is
//!   still to be done kept in `Tasks`.
//! - `Cx::{expression, condition, constant}` read a text of a session by itself, and answer the operand that it leaves, or its value, or a
//!   `UnitFault`. `Want` and `Branch` say what becomes of the value.
#![tactic(auto)]

pub use inf_calls::cx::{Branch, Cx, Want};
pub use inf_calls::faults::UnitFault;
pub use inf_expressions::{
    Binary, Finding, Forest, Node, Nodes, Operand as Leaf, Root, Symbol, Unary, UnitError, Wanted,
    build, constant, judge, operand, range,
};
pub use inf_gathering::gathering::Gathering;
pub use inf_templates::{
    Tasks, lay_alone, lay_branch, lay_call, lay_instruction, lay_routine_call, lay_value,
};
pub use inf_unit::unit::Unit;
