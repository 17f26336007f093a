//! Nodes of trees, each behind the nodes of its parts.
ghost use Rattle.std.specs.Prelude.{◌≡◌, ◌<◌, ◌∷◌, [], ◌++◌, length, OnErr, IfOk};
ghost use Rattle.inf_expressions.specs.Nodes.{tree_at, tree_of, IsBelow};

use crate::operators::{Binary, Operand, Unary};
use std::alloc::{AllocError, Global};
use std::marker::Model;

/// A node, with the places of its parts.
#[derive(Clone, Copy)]
pub enum Node {
    Leaf(Operand),
    One(Unary, usize),
    Two(Binary, usize, usize),
}

/// A list of nodes, each of which is a tree together with nodes before it.
#[derive(Drop)]
pub struct Nodes {
    nodes: Vec<Node>,
}

impl Model for Nodes {
    ghost use Rattle.std.specs.Prelude.{List, []};
    ghost use Rattle.std.specs.Coded.{coded_list};
    ghost use Rattle.inf_expressions.specs.{TreeCode.tree_code, Trees.Tree};
    ghost use Rattle.inf_expressions.specs.contracts.operators.Operand as operand;
    ghost use Rattle.inf_expressions.specs.contracts.operators.Unary as unary;
    ghost use Rattle.inf_expressions.specs.contracts.operators.Binary as binary;

    ghost Value = { List Tree };

    ghost coded = { coded_list (tree_code operand.the_row.coded unary.the_row.coded binary.the_row.coded) };

    ghost use Rattle.inf_expressions.specs.Nodes.{trees_from, AreBelow};

    ghost view = { λ n. trees_from [] n.nodes.items };

    ghost invariant = { λ n. AreBelow 0 n.nodes.items };
}

impl Nodes {
    /// Returns the list of no nodes, with room for `count` of them.
    pub(crate) fn with_capacity(alloc: Global, count: usize) -> Result<Nodes, AllocError>
        ensures { IfOk result (λ nodes. nodes ≡ []) }
    {
        Ok(Nodes {
            nodes: Vec::with_capacity(alloc, count)?,
        })
    }

    /// Removes all nodes. Their memory stays.
    pub(crate) fn clear(&mut self)
        ensures { self.new ≡ [] }
    {
        self.nodes.clear();
    }

    /// Appends a node whose parts are in the list already, and returns its place.
    #[inline(always)]
    #[tactic(auto, using(crate::proofs::NodeLemmas::one_more))]
    pub(crate) fn add(&mut self, node: Node) -> Result<usize, AllocError>
        requires { IsBelow (length self.old) node }
        ensures value { IfOk result (λ _. self.new ≡ self.old ++ tree_of self.old node ∷ []) }
        ensures place { IfOk result (λ place. place ≡ length self.old) }
        ensures err { OnErr result (self.new ≡ self.old) }
    {
        let place = self.nodes.len();
        self.nodes.push(node)?;
        Ok(place)
    }

    /// Returns the node at a place, whose parts come before it; the number 0 where there is no node.
    #[tactic(auto, using(crate::proofs::NodeLemmas::at_place))]
    pub fn node(&self, place: usize) -> Node
        ensures tree { tree_at self.now place ≡ tree_of self.now result }
        ensures below { IsBelow place result }
    {
        match self.nodes.get(place) {
            Some(node) => *node,
            None => Node::Leaf(Operand::Known(0)),
        }
    }
}
