//! The trees of a unit, in order.
ghost use Rattle.std.specs.Prelude.{◌≡◌, slice_get, option_map};
ghost use Rattle.inf_expressions.specs.{Forests.trees_in, Nodes.rooted_at};

use crate::nodes::Nodes;
use crate::trees::Root;

/// The trees of a unit: the nodes of all trees, and the root of each, in the order of their texts.
#[derive(Drop)]
pub struct Forest {
    pub nodes: Nodes,
    pub roots: Vec<Root>,
}

impl Forest {
    /// Returns the root of the tree with this number, counted from 0, if there is one.
    #[tactic(auto, using(crate::proofs::Roots::root_at))]
    pub fn root(&self, number: usize) -> Option<Root>
        ensures { option_map (rooted_at self.now.nodes) result ≡ slice_get (trees_in self.now) number }
    {
        self.roots.get(number).copied()
    }
}
