//! The parts of the rows of a grammar.

/// A part of a row, whose actions are of a type `A`.
#[derive(Clone, Copy)]
pub enum Symbol<A> {
    /// A token of a class, by the class's number.
    Token(u8),
    /// A text of a rule, by the rule's number.
    Rule(u8),
    /// An action, which takes no token.
    Act(A),
}
