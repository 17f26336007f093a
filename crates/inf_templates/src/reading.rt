//! Properties of trees by which templates are chosen.
ghost use Rattle.inf_settings.specs.Bounds.{Limits};
ghost use Rattle.std.specs.Prelude.{◌≡◌, ◌≤◌, ◌+◌, [], ◌∷◌, ◌<◌, IfSome, MatchOption, Some, None, nat_lt, length};
ghost use Rattle.inf_templates.specs.{Parts.operand_of, Parts.simple, Weights.goal_load, Weights.load_at};
ghost use Rattle.inf_templates.specs.Meaning.{group, most_compared, part, parts, takes_three};
ghost use Rattle.inf_templates.specs.Tasks.{at, part_of, target_of};

use crate::tasks::{Argument, Memory};
use inf_expressions::{Binary, Node, Nodes, Operand, Operation, PropertyPart, Test};
use inf_output::Simple;
use inf_settings::bounds::Bounds;

/// The stack as a variable (Z-Machine Standard 1.1, section 4.2.2).
pub(crate) const STACK: u8 = 0;

/// The variable for values that nobody wants.
pub(crate) const TEMP: u8 = 255;

/// The goal of an assignment.
#[derive(Clone, Copy)]
pub(crate) enum Goal {
    Nowhere,
    Variable(u8),
    /// A place in memory, by the places of its parts.
    Memory(Memory, usize, usize),
}

/// Returns a leaf as an operand.
pub(crate) fn simple(operand: Operand) -> Simple
    ensures { result ≡ simple operand }
{
    match operand {
        Operand::Known(number) => Simple::Known(number),
        Operand::Variable(number) => Simple::Variable(number),
        Operand::Later(target) => Simple::Later(target),
        Operand::Function(_) | Operand::Unknown => Simple::Known(0),
    }
}

/// Returns the operand of a tree that is worked out: its own, where it is simple, otherwise the stack.
pub(crate) fn operand_of(nodes: &Nodes, place: usize) -> Simple
    ensures { (limits : Limits) → result ≡ operand_of (part (at limits nodes.now place)) }
{
    match nodes.node(place) {
        Node::Leaf(operand) => simple(operand),
        Node::One(..) | Node::Two(..) => Simple::Variable(STACK),
    }
}

/// Returns the operand of an argument that is worked out.
pub(crate) fn argument_of<B: Bounds>(nodes: &Nodes, argument: Argument) -> Simple
    ensures { result ≡ operand_of (part_of B.most nodes.now argument) }
{
    match argument {
        Argument::Of(place) => operand_of(nodes, place),
        Argument::Is(operand) => operand,
    }
}

/// Returns the operand of a simple tree; `None` where it is not simple.
pub fn simple_of<B: Bounds>(nodes: &Nodes, place: usize) -> Option<Simple>
    ensures { result ≡ (at B.most nodes.now place).operand }
{
    match nodes.node(place) {
        Node::Leaf(operand) => Some(simple(operand)),
        Node::One(..) | Node::Two(..) => None,
    }
}

pub(crate) fn takes_three(test: Test) -> bool
    ensures { result ≡ takes_three test }
{
    matches!(test, Test::Equal)
}

/// Returns the number of alternatives that a test takes at once.
pub(crate) fn group(test: Test) -> u8
    ensures { result ≡ group test }
{
    if takes_three(test) { 3 } else { 1 }
}

pub(crate) fn most_compared(test: Test) -> usize
    ensures value { result ≡ most_compared test }
    ensures enough { 2 ≤ result }
    ensures few { result ≤ 4 }
{
    if takes_three(test) { 4 } else { 2 }
}

/// Returns the goal of an assignment to the tree at `place`.
pub(crate) fn target(nodes: &Nodes, place: usize) -> Goal
    ensures code { (limits : Limits) → target_of limits nodes.now result ≡ (at limits nodes.now place).target }
    ensures less { goal_load nodes.now result ≤ load_at nodes.now place }
{
    match nodes.node(place) {
        Node::Leaf(operand) => match simple(operand) {
            Simple::Variable(variable) => Goal::Variable(variable),
            Simple::Known(_) | Simple::Later(_) => Goal::Nowhere,
        },
        Node::Two(Binary::Operation(Operation::Byte), a, b) => Goal::Memory(Memory::Byte, a, b),
        Node::Two(Binary::Operation(Operation::Word), a, b) => Goal::Memory(Memory::Word, a, b),
        Node::Two(Binary::Property(PropertyPart::Value), a, b) => {
            Goal::Memory(Memory::Property, a, b)
        }
        _ => Goal::Nowhere,
    }
}

/// Returns the first member of a list and the list of the others, if there are any.
pub(crate) fn split(nodes: &Nodes, list: usize) -> Option<(usize, usize)>
    ensures less { IfSome result (λ p. load_at nodes.now list ≡ 16 + load_at nodes.now p.0 + load_at nodes.now p.1) }
    ensures code { MatchOption result ((limits : Limits) → parts (at limits nodes.now list) ≡ part (at limits nodes.now list) ∷ [])
        (λ p. (limits : Limits) → parts (at limits nodes.now list) ≡ part (at limits nodes.now p.0) ∷ parts (at limits nodes.now p.1)) }
{
    match nodes.node(list) {
        Node::Two(Binary::Then, a, others) => Some((a, others)),
        _ => None,
    }
}

/// Returns whether `list` has more than `count` members.
pub(crate) fn has_more(nodes: &Nodes, list: usize, count: u8) -> bool
    ensures { (limits : Limits) → result ≡ nat_lt count (length (parts (at limits nodes.now list))) }
{
    let mut left = list;
    for _ in 0..count {
        match split(nodes, left) {
            Some((_, others)) => left = others,
            None => return false,
        }
    }
    true
}
