//! The operands of the leaves of a unit, as a list.
ghost use Rattle.std.specs.Prelude.{◌≡◌};
ghost use Rattle.inf_operands.specs.OperandLists.{operands_in};

use inf_expressions::Operand;

/// The operands of the leaves of a unit. That of a single leaf takes no memory of its own.
#[derive(Drop)]
pub enum OperandList {
    One([Operand; 1]),
    Many(Vec<Operand>),
}

impl OperandList {
    /// Returns the operands, in the order of their leaves.
    pub fn as_slice(&self) -> &[Operand]
        ensures { result.now ≡ operands_in self.now }
    {
        match self {
            OperandList::One(one) => one.as_slice(),
            OperandList::Many(many) => many.as_slice(),
        }
    }
}
