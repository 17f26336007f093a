//! The steps by which units gather expressions.

use inf_expressions::{Binary, Unary};

/// A step by which an expression is gathered.
#[derive(Clone, Copy)]
pub enum GatherStep {
    /// The last token is a leaf.
    Leaf,
    /// The last token names an action.
    Action,
    /// The last token names a system constant.
    System,
    /// An operator of the latest expression, in front of it.
    Prefix(Unary),
    /// An operator of the latest expression, behind it.
    Suffix(Unary),
    /// An operator of the latest two.
    Two(Binary),
    Comma,
    /// A list begins: the arguments of a call, or what a test goes by.
    List,
    /// The latest expression is a part of the open list.
    Part,
    /// A call with the parts of the open list.
    Call,
    /// A test against the parts of the open list.
    Test(Binary),
    /// The last token opens a bracket.
    Bracket,
    /// The latest expression stands in the bracket that was opened last.
    Bracketed,
}
