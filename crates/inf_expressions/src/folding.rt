//! The node of an operator; where its operands are known numbers, the number that it gives.
ghost use Rattle.std.specs.Prelude.{◌≡◌, ◌<◌, Option, IfSome, MatchOption, Bool, ℕ};
ghost use Rattle.inf_expressions.specs.Nodes.{tree_at, tree_of, IsBelow};
ghost use Rattle.inf_expressions.specs.Folding.{any_holds, any_known, folded, folded_single, folded_two, function_of, holds_known};
ghost use Rattle.inf_expressions.specs.Folding.{joined, joined_single, known, operator_of, or_known, sensed};

use crate::nodes::{Node, Nodes};
use crate::numbers::{computed, computed_single, holds, truth};
use crate::operators::{Binary, Function, Operand, Relative, Single, Test, Unary};

/// Returns the number that the tree at a place is, if it is one. A leaf that has no value counts as 0.
fn known(nodes: &Nodes, place: usize) -> Option<u16>
    ensures { result ≡ known (tree_at nodes.now place) }
{
    match nodes.node(place) {
        Node::Leaf(Operand::Known(number)) => Some(number),
        Node::Leaf(Operand::Function(_) | Operand::Unknown) => Some(0),
        Node::Leaf(Operand::Variable(_) | Operand::Later(_))
        | Node::One(_, _)
        | Node::Two(_, _, _) => { None }
    }
}

/// Returns the function of the system that the tree at a place is, if it is one.
fn function_of(nodes: &Nodes, place: usize) -> Option<Function>
    ensures { result ≡ function_of (tree_at nodes.now place) }
{
    match nodes.node(place) {
        Node::Leaf(Operand::Function(function)) => Some(function),
        _ => None,
    }
}

/// Returns whether one of two truths holds, where both are known.
fn or_known(a: Option<bool>, b: Option<bool>) -> Option<bool>
    ensures { result ≡ or_known a b }
{
    match (a, b) {
        (Some(a), Some(b)) => Some(a || b),
        _ => None,
    }
}

/// Returns whether a test holds of `a` and `b`, where `b` is known and the test is computed.
fn holds_known(test: Test, a: u16, b: Option<u16>) -> Option<bool>
    ensures { result ≡ holds_known test a b }
{
    match b {
        Some(b) => holds(test, a, b),
        None => None,
    }
}

/// Returns the first tree of a list and the list of the others, or `None` for a tree that is not a list.
fn split(nodes: &Nodes, list: usize) -> Option<(usize, usize)>
    ensures parts { (found : Option Bool) (t : Test) (n : ℕ) → MatchOption result
        (any_holds found t n (tree_at nodes.now list) ≡ or_known found (holds_known t n (known (tree_at nodes.now list))))
        (λ p. any_holds found t n (tree_at nodes.now list)
        ≡ any_holds (or_known found (holds_known t n (known (tree_at nodes.now p.0)))) t n (tree_at nodes.now p.1)) }
    ensures below { IfSome result (λ p. p.1 < list) }
{
    match nodes.node(list) {
        Node::Two(Binary::Then, a, others) => Some((a, others)),
        _ => None,
    }
}

/// Returns whether a test holds of `a` and any tree of a list, where all of them are known.
fn any_holds(nodes: &Nodes, test: Test, a: u16, list: usize) -> Option<bool>
    ensures { result ≡ any_known test (Some a) (tree_at nodes.now list) }
{
    let mut found = Some(false);
    let mut left = list;
    while let Some((b, others)) = split(nodes, left) {
        found = or_known(found, holds_known(test, a, known(nodes, b)));
        left = others;
    }
    or_known(found, holds_known(test, a, known(nodes, left)))
}

fn any_known(nodes: &Nodes, test: Test, a: Option<u16>, list: usize) -> Option<bool>
    ensures { result ≡ any_known test a (tree_at nodes.now list) }
{
    match a {
        Some(a) => any_holds(nodes, test, a, list),
        None => None,
    }
}

/// Returns the number of a known truth, or of its contrary where `sense` is false.
fn sensed(sense: bool, found: Option<bool>) -> Option<u16>
    ensures { result ≡ sensed sense found }
{
    match found {
        Some(found) => Some(truth(found == sense)),
        None => None,
    }
}

/// Returns the number that an operator of two parts gives, other than a test, where both parts are known and the operator is computed.
fn folded_two(op: Binary, a: Option<u16>, b: Option<u16>) -> Option<u16>
    ensures { result ≡ folded_two op a b }
{
    match (op, a, b) {
        (Binary::Operation(operation), Some(a), Some(b)) => computed(operation, a, b),
        (Binary::And, Some(a), Some(b)) => Some(truth(a != 0 && b != 0)),
        (Binary::Or, Some(a), Some(b)) => Some(truth(a != 0 || b != 0)),
        _ => None,
    }
}

/// Returns the number that an operator gives of two trees, if it is known.
fn folded(nodes: &Nodes, op: Binary, a: usize, b: usize) -> Option<u16>
    ensures { result ≡ folded op (tree_at nodes.now a) (tree_at nodes.now b) }
{
    match op {
        Binary::Test(test) => sensed(true, any_known(nodes, test, known(nodes, a), b)),
        Binary::Fails(test) => sensed(false, any_known(nodes, test, known(nodes, a), b)),
        Binary::Operation(_)
        | Binary::Property(_)
        | Binary::Assign
        | Binary::Comma
        | Binary::And
        | Binary::Or
        | Binary::Call
        | Binary::Then
        | Binary::To => folded_two(op, known(nodes, a), known(nodes, b)),
    }
}

fn folded_single(op: Unary, a: Option<u16>) -> Option<u16>
    ensures { result ≡ folded_single op a }
{
    match a {
        Some(a) => computed_single(op, a),
        None => None,
    }
}

/// Returns the operator that a call of a function of the system is.
fn operator_of(function: Function) -> Unary
    ensures { result ≡ operator_of function }
{
    match function {
        Function::Child => Unary::Relative(Relative::Child),
        Function::Sibling => Unary::Relative(Relative::Sibling),
        Function::Parent => Unary::Single(Single::Parent),
        Function::Random => Unary::Single(Single::Random),
        Function::Children => Unary::Children,
        Function::Indirect => Unary::Indirect,
    }
}

/// Returns the node of an operator of two trees. A call of a function of the system becomes an operator of its list of arguments.
pub(crate) fn joined(nodes: &Nodes, op: Binary, a: usize, b: usize) -> Node
    ensures tree { tree_of nodes.now result ≡ joined op (tree_at nodes.now a) (tree_at nodes.now b) }
    ensures below { (place : ℕ) → a < place → b < place → IsBelow place result }
{
    match folded(nodes, op, a, b) {
        Some(number) => Node::Leaf(Operand::Known(number)),
        None => match (op, function_of(nodes, a)) {
            (Binary::Call, Some(function)) => Node::One(operator_of(function), b),
            _ => Node::Two(op, a, b),
        },
    }
}

/// Returns the node of an operator of one tree.
pub(crate) fn joined_single(nodes: &Nodes, op: Unary, a: usize) -> Node
    ensures tree { tree_of nodes.now result ≡ joined_single op (tree_at nodes.now a) }
    ensures below { (place : ℕ) → a < place → IsBelow place result }
{
    match folded_single(op, known(nodes, a)) {
        Some(number) => Node::Leaf(Operand::Known(number)),
        None => Node::One(op, a),
    }
}
