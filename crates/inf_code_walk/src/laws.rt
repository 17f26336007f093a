//! The law that the code of each expression is made of a few kinds of pieces.
ghost use Rattle.inf_code_walk.specs.Made.{TreesAreMade};

/// States that the code of a tree is made of pieces whose operands refer to the targets of its leaves alone, in each use
/// of the tree, with the labels that it marks and those that it needs.
pub fn trees_are_made()
    ensures { TreesAreMade }
{}
