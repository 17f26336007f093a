//! The latest trees of a unit, which are judged as they are gathered.
ghost use Rattle.std.specs.Prelude.{◌≡◌, [], IfOk, OnOk, map, reverse};
ghost use Rattle.inf_expressions.specs.{Nodes.rooted_at, Rooted.begun, Rooted.nobody, Rooted.seen, Rooted.seen_two, Rooted.with_two};
ghost use Rattle.inf_expressions.specs.Units.{call_joined, called, listed, nothing_gathered, parted, with_brackets, with_operand};
ghost use Rattle.inf_expressions.specs.Units.{with_two_of, with_unary_of};

use crate::findings::Finding;
use crate::folding::{joined, joined_single};
use crate::forest::Forest;
use crate::judging::{call_finding, leaf_finding, two_finding, unary_finding};
use crate::kinds::{Kind, Seen, kind_of};
use crate::nodes::{Node, Nodes};
use crate::operators::{Binary, Operand, Unary};
use crate::origins::{Origin, nowhere};
use crate::units::Wanted;
use std::alloc::{AllocError, Global};
use std::marker::Model;

/// The root of a tree: its place among the nodes, and the tokens with which its text begins.
#[derive(Clone, Copy)]
pub struct Root {
    pub place: usize,
    pub origin: Origin,
}

/// The trees of a unit so far, and the least finding. In contracts the trees are a list, the latest first.
#[derive(Drop)]
pub(crate) struct Gathered {
    nodes: Nodes,
    roots: Vec<Root>,
    finding: Option<Finding>,
}

impl Model for Gathered {
    ghost use Rattle.inf_expressions.specs.Units.{Gathered as Value_of, gathered_code};
    ghost use Rattle.inf_expressions.specs.contracts.operators.Operand as operand;
    ghost use Rattle.inf_expressions.specs.contracts.operators.Unary as unary;
    ghost use Rattle.inf_expressions.specs.contracts.operators.Binary as binary;
    ghost use Rattle.inf_expressions.specs.contracts.origins.Origin as origin;
    ghost use Rattle.inf_expressions.specs.contracts.findings.Finding as told;

    ghost Value = { Value_of };

    ghost coded = { gathered_code operand.the_row.coded unary.the_row.coded binary.the_row.coded origin.the_row.coded told.the_row.coded };

    ghost use Rattle.inf_expressions.specs.Nodes.{rooted, AreRoots};

    ghost view = { λ g. record { trees = rooted g.nodes g.roots.items; finding = g.finding } };

    ghost invariant = { λ g. AreRoots g.nodes g.roots.items };
}

/// Returns the kind and the origin that count where there is no tree.
fn nobody() -> Seen
    ensures { result ≡ nobody }
{
    Seen {
        kind: Kind::Code,
        origin: nowhere(),
    }
}

/// Returns the kind and the origin of a tree.
pub(crate) fn seen(nodes: &Nodes, root: Root) -> Seen
    ensures { result ≡ seen (rooted_at nodes.now root) }
{
    Seen {
        kind: kind_of(nodes, root.place),
        origin: root.origin,
    }
}

/// Returns the origin of an operator and its part, where the operator is in front and `front` is its order, or it is behind.
fn begun(front: Option<u32>, origin: Origin) -> Origin
    ensures { result ≡ begun front origin }
{
    match front {
        Some(order) => origin.prefixed(order),
        None => origin.followed(),
    }
}

impl Gathered {
    /// Returns a state of no trees and no finding, in the memory of `spare`, or with room for `count` trees.
    #[inline(always)]
    pub(crate) fn begun(
        alloc: Global,
        count: usize,
        spare: Option<Forest>,
    ) -> Result<Gathered, AllocError>
        ensures { IfOk result (λ g. g ≡ nothing_gathered) }
    {
        let (mut nodes, mut roots) = match spare {
            Some(forest) => (forest.nodes, forest.roots),
            None => (
                Nodes::with_capacity(alloc, count)?,
                Vec::with_capacity(alloc, count)?,
            ),
        };
        nodes.clear();
        roots.clear();
        Ok(Gathered {
            nodes,
            roots,
            finding: None,
        })
    }

    #[inline(always)]
    #[tactic(auto, using(crate::proofs::Roots::roots_step))]
    pub(crate) fn leaf(
        &mut self,
        first: u32,
        token: u32,
        operand: Operand,
    ) -> Result<(), AllocError>
        ensures { OnOk result (self.new ≡ with_operand first token operand self.old) }
    {
        let origin = Origin::of_leaf(first, token, operand);
        let place = self.nodes.add(Node::Leaf(operand))?;
        self.roots.push(Root { place, origin })?;
        self.finding = leaf_finding(operand, token, self.finding);
        Ok(())
    }

    /// Puts the latest tree in brackets, of which the opening one has this order.
    #[tactic(auto, using(crate::proofs::Roots::roots_step))]
    pub(crate) fn bracketed(&mut self, order: u32) -> Result<(), AllocError>
        ensures { OnOk result (self.new ≡ with_brackets order self.old) }
    {
        if let Some(a) = self.roots.pop() {
            let origin = a.origin.bracketed(order);
            self.roots.push(Root {
                place: a.place,
                origin,
            })?;
        }
        Ok(())
    }

    /// Joins the latest tree to an operator, which is in front of it where `front` has its order.
    #[tactic(auto, using(crate::proofs::Roots::roots_step))]
    pub(crate) fn unary(&mut self, op: Unary, front: Option<u32>) -> Result<(), AllocError>
        ensures { OnOk result (self.new ≡ with_unary_of op front self.old) }
    {
        if let Some(a) = self.roots.pop() {
            let saw = seen(&self.nodes, a);
            let node = joined_single(&self.nodes, op, a.place);
            let origin = begun(front, a.origin);
            let place = self.nodes.add(node)?;
            self.roots.push(Root { place, origin })?;
            self.finding = unary_finding(op, saw, self.finding);
            Ok(())
        } else {
            self.finding = unary_finding(op, nobody(), self.finding);
            Ok(())
        }
    }

    /// Joins the latest two trees by an operator. Returns the kinds and the origins that they had.
    #[inline(always)]
    #[tactic(auto, using(crate::proofs::Roots::roots_step))]
    fn join(&mut self, op: Binary) -> Result<(Seen, Seen), AllocError>
        ensures value { OnOk result (self.new ≡ record self.old { trees = with_two op self.old.trees }) }
        ensures saw { IfOk result (λ s. s ≡ seen_two self.old.trees) }
    {
        if let (Some(b), Some(a)) = (self.roots.pop(), self.roots.pop()) {
            let saw = (seen(&self.nodes, a), seen(&self.nodes, b));
            let node = joined(&self.nodes, op, a.place, b.place);
            let origin = a.origin.followed();
            let place = self.nodes.add(node)?;
            self.roots.push(Root { place, origin })?;
            Ok(saw)
        } else {
            Ok((nobody(), nobody()))
        }
    }

    /// Joins the latest two trees by an operator, in a unit that begins at the order `unit`.
    #[inline(always)]
    pub(crate) fn two(&mut self, unit: u32, op: Binary) -> Result<(), AllocError>
        ensures { OnOk result (self.new ≡ with_two_of unit op self.old) }
    {
        let (a, b) = self.join(op)?;
        self.finding = two_finding(op, unit, a, b, self.finding);
        Ok(())
    }

    /// Joins the latest trees to a list with this number of joints.
    pub(crate) fn list(&mut self, unit: u32, joints: u32) -> Result<(), AllocError>
        ensures { OnOk result (self.new ≡ listed unit joints self.old) }
    {
        for _ in 0..joints {
            self.two(unit, Binary::Then)?;
        }
        Ok(())
    }

    fn call_joined(&mut self, unit: u32, given: u32) -> Result<(), AllocError>
        ensures { OnOk result (self.new ≡ call_joined unit given self.old) }
    {
        let (callee, list) = self.join(Binary::Call)?;
        self.finding = call_finding(unit, given, callee, list, self.finding);
        Ok(())
    }

    /// Joins the latest `given` trees to the list of arguments of a call of the tree before them.
    pub(crate) fn call(&mut self, unit: u32, given: u32) -> Result<(), AllocError>
        ensures { OnOk result (self.new ≡ called unit given self.old) }
    {
        if given == 0 {
            self.unary(Unary::Call, None)
        } else {
            self.list(unit, given - 1)?;
            self.call_joined(unit, given)
        }
    }

    /// Reads a comma outside of brackets: it parts two values of a case, and elsewhere joins the latest two trees.
    pub(crate) fn comma(&mut self, wanted: Wanted, unit: u32) -> Result<(), AllocError>
        ensures { OnOk result (self.new ≡ parted wanted unit self.old) }
    {
        match wanted {
            Wanted::Case => Ok(()),
            Wanted::Value | Wanted::Constant | Wanted::Number | Wanted::Operand | Wanted::Loop => {
                self.two(unit, Binary::Comma)
            }
        }
    }

    /// Returns the trees, in the order of their texts, and the least finding.
    #[inline(always)]
    #[tactic(auto, using(crate::proofs::Roots::reversed_roots))]
    pub(crate) fn into_parts(self) -> (Forest, Option<Finding>)
        ensures trees { map (rooted_at result.0.nodes) result.0.roots.items ≡ reverse self.trees }
        ensures finding { result.1 ≡ self.finding }
    {
        let forest = Forest {
            nodes: self.nodes,
            roots: self.roots,
        };
        (forest, self.finding)
    }
}
