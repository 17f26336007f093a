//! The symbols that the grammar gathers of expressions.

use crate::operators::{Binary, Unary};

/// A symbol that an action of the grammar gathers of an expression: a leaf, or an operator behind its parts. Tokens are named by
/// their orders among those of their piece.
#[derive(Clone, Copy)]
pub enum Symbol {
    /// A leaf: its first token, the token at which its errors are reported (behind the sign of `#x` and `##X`, else the first
    /// token), and its place among the operands of its unit.
    Leaf { first: u32, token: u32, leaf: usize },
    /// Brackets around the latest expression, of which the opening one has this order.
    Bracketed(u32),
    /// An operator in front of the latest expression, with this order.
    Prefix(u32, Unary),
    /// An operator behind the latest expression.
    Suffix(Unary),
    /// An operator of the latest two expressions.
    Two(Binary),
    /// A comma outside of brackets. In a case it parts two values; elsewhere it is the operator.
    Comma,
    /// A list of the latest expressions, with this number of joints between them.
    List(u32),
    /// A call, with this number of arguments behind the expression that is called.
    Call(u32),
}
