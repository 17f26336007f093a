//! The kind of an expression and its origin, by which errors are found.
ghost use Rattle.std.specs.Prelude.{◌≡◌};
ghost use Rattle.inf_expressions.specs.{Nodes.tree_at, Rooted.kind_of, Trees.Leaf};

use crate::nodes::{Node, Nodes};
use crate::operators::{Binary, Function, Operand, Operation, PropertyPart};
use crate::origins::Origin;

/// The kind of a tree.
#[derive(Clone, Copy)]
pub(crate) enum Kind {
    Number(u16),
    /// A constant that is known only when the story is laid out.
    Constant,
    Variable,
    Function(Function),
    /// An entry of an array, which can be assigned.
    Entry,
    /// A property's value, which can be assigned, and called.
    Property,
    /// A range of values of a case, from one to another.
    Range,
    Code,
}

/// The kind of a tree, and the tokens with which its text begins.
#[derive(Clone, Copy)]
pub(crate) struct Seen {
    pub kind: Kind,
    pub origin: Origin,
}

/// Returns the kind of a leaf.
pub(crate) fn kind_of_leaf(operand: Operand) -> Kind
    ensures { result ≡ kind_of (Leaf operand) }
{
    match operand {
        Operand::Known(number) => Kind::Number(number),
        Operand::Variable(_) => Kind::Variable,
        Operand::Later(_) => Kind::Constant,
        Operand::Function(function) => Kind::Function(function),
        Operand::Unknown => Kind::Number(0),
    }
}

/// Returns the kind of the tree at a place.
pub(crate) fn kind_of(nodes: &Nodes, place: usize) -> Kind
    ensures { result ≡ kind_of (tree_at nodes.now place) }
{
    match nodes.node(place) {
        Node::Leaf(operand) => kind_of_leaf(operand),
        Node::Two(Binary::Operation(Operation::Byte | Operation::Word), _, _) => Kind::Entry,
        Node::Two(Binary::Property(PropertyPart::Value), _, _) => Kind::Property,
        Node::Two(Binary::To, _, _) => Kind::Range,
        _ => Kind::Code,
    }
}
