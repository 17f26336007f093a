//! Questions about the tree at a place.
ghost use Rattle.std.specs.Prelude.{◌≡◌, option_map};
ghost use Rattle.inf_expressions.specs.Nodes.{tree_at, trees_at};
ghost use Rattle.inf_expressions.specs.Questions.{children_of, constant_of, is_list, operand_of, range_of};

use crate::nodes::{Node, Nodes};
use crate::operators::{Binary, Operand, Test};
use inf_area::Value;

/// Returns the operand that a tree is without code, if it is a leaf; a known number is one.
pub fn operand(nodes: &Nodes, place: usize) -> Option<Operand>
    ensures { result ≡ operand_of (tree_at nodes.now place) }
{
    match nodes.node(place) {
        Node::Leaf(operand) => Some(operand),
        Node::One(_, _) | Node::Two(_, _, _) => None,
    }
}

/// Returns the constant that a tree is, if it is one.
pub fn constant(nodes: &Nodes, place: usize) -> Option<Value>
    ensures { result ≡ constant_of (tree_at nodes.now place) }
{
    match nodes.node(place) {
        Node::Leaf(Operand::Known(number)) => Some(Value::Known(number)),
        Node::Leaf(Operand::Later(target)) => Some(Value::Later(target)),
        Node::Leaf(Operand::Variable(_) | Operand::Function(_) | Operand::Unknown)
        | Node::One(_, _)
        | Node::Two(_, _, _) => None,
    }
}

/// Returns the places of the least and the greatest value of a range, if the tree is one.
pub fn range(nodes: &Nodes, place: usize) -> Option<(usize, usize)>
    ensures { option_map (trees_at nodes.now) result ≡ range_of (tree_at nodes.now place) }
{
    match nodes.node(place) {
        Node::Two(Binary::To, least, greatest) => Some((least, greatest)),
        _ => None,
    }
}

/// Returns the place of the object whose children a loop goes over, if the tree is `v in e` and `e` is a single expression.
pub fn children_of(nodes: &Nodes, place: usize) -> Option<usize>
    ensures { option_map (tree_at nodes.now) result ≡ children_of (tree_at nodes.now place) }
{
    match nodes.node(place) {
        Node::Two(Binary::Test(Test::In), a, b)
            if operand(nodes, a).is_some() && !is_list(nodes, b) => Some(b),
        _ => None,
    }
}

fn is_list(nodes: &Nodes, place: usize) -> bool
    ensures { result ≡ is_list (tree_at nodes.now place) }
{
    match nodes.node(place) {
        Node::Two(Binary::Then, _, _) => true,
        _ => false,
    }
}
