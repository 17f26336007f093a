//! A session of which texts are read by themselves, the wishes of a caller, and the answers.
use inf_opcode::Label;
use inf_session::session::Session;
use inf_settings::bounds::Bounds;
use inf_settings::settings::Settings;

/// A session of which texts are read by themselves, and the settings with which it was made. Between the calls steps of the session read
/// directives, by which names are declared.
#[derive(Drop)]
pub struct Cx<'a, B: Bounds> {
    pub settings: &'a Settings,
    pub session: Session<'a, B>,
}

/// The use that is made of the value of an expression.
#[derive(Clone, Copy, Debug)]
pub enum Want {
    /// The answer is used for nothing.
    Nothing,
    /// An operand: its own where the expression is simple, and else the stack.
    Stack,
    /// The value of this variable; 0 is the stack.
    Variable(u8),
}

/// The branch of a condition: to `label`, where its truth is `sense`.
#[derive(Clone, Copy)]
pub struct Branch {
    pub sense: bool,
    pub label: Label,
}

/// The place of a routine in the code, the number of its bytes with those that fill it up, and the number of its references.
#[derive(Clone, Copy, Debug, PartialEq, Eq)]
pub struct Closed {
    pub start: usize,
    pub len: usize,
    pub refs: usize,
}
