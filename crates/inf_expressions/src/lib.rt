//! Expressions as trees.
//!
//! The grammar reads an expression as a list of symbols, each operator behind its parts. When the unit that has them ends, its
//! operands are looked up; then `judge` gives the least error of the symbols with these operands, if there is one, and `build`
//! makes their trees, in which operators of known numbers are computed and brackets are gone.
#![tactic(auto)]

mod findings;
mod folding;
mod forest;
mod judging;
mod kinds;
mod laws;
mod nodes;
mod numbers;
mod operators;
mod origins;
mod questions;
mod symbols;
mod trees;
mod units;

pub use findings::{Finding, UnitError, least, least_of_both};
pub use forest::Forest;
pub use laws::{expressions_have_one_order, symbols_are_read_as_their_trees};
pub use nodes::{Node, Nodes};
pub use operators::{
    Binary, Direction, Function, Operand, Operation, PropertyPart, Relative, Single, Test, Unary,
};
pub use origins::{Lead, Origin};
pub use questions::{children_of, constant, operand, range};
pub use symbols::Symbol;
pub use trees::Root;
pub use units::{Wanted, build, judge, judge_whole};
